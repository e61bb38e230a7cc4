//! Laws of images. A law is the contract of a function that does nothing.

ghost use Rattle.std.specs.Prelude.{◌≡◌, ◌≢◌, ◌++◌, ◌∷◌, ℕ, false, true, Err, List, []};
ghost use Rattle.ar_op.specs.Code.{Code, IsWritable};
ghost use Rattle.ar_code.specs.Decoding.{decoded};
ghost use Rattle.ar_code.specs.Image.{body, image, is_new, magic};
ghost use Rattle.std.specs.List.{list_any};
ghost use Rattle.ar_code.specs.declared.error.ImageError.TheVariants.{OutOfMemory};

/// No image is that of two codes, and none begins another.
#[tactic(auto, using(crate::proofs::Again::one_image))]
pub fn one_image()
    ensures { (first second : Code) (rest : List ℕ) → IsWritable first → IsWritable second
        → image first ++ rest ≡ image second → (first ≡ second) × (rest ≡ []) }
{}

/// Code without an operation of version 2 has the image of version 1.
#[tactic(auto, using(crate::proofs::Again::first_image))]
pub fn first_version_stays()
    ensures { (code : Code) → list_any is_new code.ops ≡ false → image code ≡ magic ++ 1 ∷ body code }
{}

/// Other code has an image of version 2.
#[tactic(auto, using(crate::proofs::Again::second_image))]
pub fn second_version()
    ensures { (code : Code) → list_any is_new code.ops ≡ true → image code ≡ magic ++ 2 ∷ body code }
{}

/// No bytes are refused as out of memory: that is never their own fault.
#[tactic(auto, using(crate::proofs::Readings::decoded_not_memory))]
pub fn memory_is_no_fault()
    ensures { (bytes : List ℕ) → decoded bytes ≢ Err OutOfMemory }
{}
