//! What holds of binding, for all texts. A law is the contract of a function that does nothing.

ghost use Rattle.std.specs.Prelude.{◌≡◌, ◌≢◌, ◌↔◌, ◌++◌, ℕ, List, IsSome, Ok, Err, Some, None, codes};
ghost use Rattle.serde_json.specs.Data.{Data};
ghost use Rattle.ar_manifest.specs.Arguments.{value_of};
ghost use Rattle.ar_manifest.specs.Binding.{RunArguments, argument_name, bound_text, referred_value, trimmed};
ghost use Rattle.ar_manifest.specs.Bound.{bound_of};
ghost use Rattle.ar_manifest.specs.Cut.{AreParts, CutsAtFirst, Lacks, Parts, parts_of};
ghost use Rattle.ar_manifest.specs.Found.{refused_limit, unbound_reference};
ghost use Rattle.ar_manifest.specs.Template.{TemplateArguments, template_of};
ghost use Rattle.ar_manifest.specs.declared.error.ManifestError.{ManifestError};
ghost use Rattle.ar_manifest.specs.declared.template.Template.{Template};

/// Each text has parts, and only these: cut at the first `{{` and the next `}}` after it, and so
/// on with the rest.
pub fn one_cut()
    ensures { (text : List ℕ) (parts : Parts) → AreParts text parts ↔ (parts_of text ≡ parts) }
{}

/// A text without `{{` is bound to itself.
pub fn plain_text_stays()
    ensures { (arguments : TemplateArguments) (own : RunArguments) (i : ℕ) (text : List ℕ)
        → Lacks (codes "{{") text → bound_text arguments own i text ≡ Ok text }
{}

/// A text with one reference is bound to what comes before it, its value, and what comes after.
pub fn one_reference_gives_way()
    ensures { (arguments : TemplateArguments) (own : RunArguments) (i : ℕ)
        (text before opened between after value : List ℕ)
        → CutsAtFirst (codes "{{") text before opened → CutsAtFirst (codes "}}") opened between after
        → Lacks (codes "{{") after
        → referred_value arguments own i between ≡ Ok value
        → bound_text arguments own i text ≡ Ok (before ++ (value ++ after)) }
{}

/// A run's own value of an argument takes precedence over the template's.
pub fn own_value_is_first()
    ensures { (arguments : TemplateArguments) (own : RunArguments) (i : ℕ) (between name value : List ℕ)
        → argument_name (trimmed between) ≡ Some name → value_of name arguments ≢ None → value_of name own ≡ Some value
        → referred_value arguments own i between ≡ Ok value }
{}

/// No template is refused as out of memory, neither when it is read nor when it is bound.
pub fn memory_is_no_refusal()
    ensures read { (document : Data) → template_of document ≢ Err ManifestError.OutOfMemory }
    ensures bound { (template : Template) (own : RunArguments) → bound_of template own ≢ Err ManifestError.OutOfMemory }
{}

/// Where a template is refused for a reference without a value, or for a limit, there is one that is found.
pub fn refusals_are_found()
    ensures unknown { (template : Template) (own : RunArguments) (i : ℕ)
        → bound_of template own ≡ Err (ManifestError.UnknownArg i) → IsSome (unbound_reference template own i) }
    ensures no_value { (template : Template) (own : RunArguments) (i : ℕ)
        → bound_of template own ≡ Err (ManifestError.NoValue i) → IsSome (unbound_reference template own i) }
    ensures bad_limit { (template : Template) (own : RunArguments) (i : ℕ)
        → bound_of template own ≡ Err (ManifestError.BadLimit i) → IsSome (refused_limit template own i) }
{}
