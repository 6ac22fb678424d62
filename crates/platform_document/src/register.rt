ghost use Rattle.smm_base.specs.Register.{register_named};

use crate::word::Word;
use smm_base::Register;

/// A register of the save-state service by its name.
impl Word for Register {
    ghost meaning = { register_named };

    fn of(text: &str) -> Option<Self> {
        Register::named(text)
    }
}
