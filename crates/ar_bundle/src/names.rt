//! Types that name a bundle in contracts. No value of such a type is needed: a function over them speaks of
//! whichever bundle its caller has.

ghost use Rattle.ar_bundle.specs.Bundle.{bundle_of};
ghost use Rattle.std.specs.Prelude.{ℕ, []};

use std::marker::Brand;

/// Names a bundle, and how many workers there are for it.
pub trait BundleName {
    ghost use Rattle.ar_bundle.specs.Bundle.{Bundle};

    ghost bundle: { Bundle };

    ghost workers: { ℕ };
}

// A caller that takes `Brand` says which bundle it means; these apply where none does.
impl BundleName for Brand {
    ghost bundle = { bundle_of [] [] [] };

    ghost workers = { 0 };
}
