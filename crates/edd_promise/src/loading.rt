//! Compiled images are loaded.

ghost use Rattle.std.specs.Prelude.{◌≡◌, ℕ, List, IfSome};
ghost use Rattle.edd_instructions.specs.declared.rules.Rule.{Rule};
ghost use Rattle.edd_instructions.specs.Validity.{BreaksFirst};
ghost use Rattle.edd_loader.specs.declared.fault.LoadFault.{LoadFault};
ghost use Rattle.edd_loader.specs.declared.fault.LoadFault.TheVariants.{Memory};
ghost use Rattle.edd_loader.specs.Faults.{rule_of};
ghost use Rattle.edd_compiler.specs.Images.{IsImageOf};

/// What `compile` gives is loaded: it breaks no rule of images, so `load` refuses it only where
/// memory is refused.
pub fn compiled_images_load()
    ensures unbroken { (text b : List ℕ) → IsImageOf text b → (rule : Rule)
        → ¬ BreaksFirst b rule }
    ensures refused { (text b : List ℕ) → IsImageOf text b → (fault : LoadFault)
        → IfSome (rule_of fault) (BreaksFirst b) → fault ≡ Memory }
{}
