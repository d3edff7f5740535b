//! A law of every input, as the contract of a function that does nothing.
ghost use Rattle.std.specs.Prelude.{ℕ, List};
ghost use Rattle.esm_model.specs.declared.item.LineKind.{LineKind};
ghost use Rattle.esm_record.specs.Input.{input_so_far, input_of};
ghost use Rattle.esm_record.specs.GoesOn.{GoesOnFrom};

/// The last line of an input can only add to the items of the lines before it, and changes nothing after a bad line.
pub fn whole_goes_on()
    ensures { (kind : LineKind) (bytes : List ℕ) → GoesOnFrom (input_so_far kind bytes) (input_of kind bytes) }
{}
