ghost use Rattle.std.specs.Prelude.{◌≡◌, ◌≤◌, IfOk, IsTrue};
ghost use Rattle.toml.specs.View.{table_view};
ghost use Rattle.smm_base.specs.Register.{is_register_number};
ghost use Rattle.cpu_table.specs.Ranges.{is_variable};
ghost use Rattle.platform_document.specs.Reading.{path_to};
ghost use Rattle.platform_document.specs.CommonKeys.{cpu_at, register_at, width_at, into_at, kind_at};

use crate::document::{number_at, word_at};
use crate::fault::WalkFault;
use crate::operand::Variable;
use crate::path::{Key, TablePlace, path_to};
use smm_base::{HandlerType, Register, register_laws};
use toml::Table;

/// The number of a processor at the key `cpu`, 0 to 65535.
pub fn cpu_at(table: &Table, place: TablePlace) -> Result<u16, WalkFault>
    ensures { result ≡ cpu_at place (table_view table.now) }
{
    let number = number_at(table, path_to(place, Key::Cpu), 0, 65535)?;
    Ok(number as u16)
}

/// The number of a register that a key `reg` names.
pub fn register_at(table: &Table, place: TablePlace) -> Result<u32, WalkFault>
    ensures register { result ≡ register_at place (table_view table.now) }
    ensures fits { IfOk result (λ number. IsTrue (is_register_number number)) }
{
    let register: Register = word_at(table, path_to(place, Key::Reg))?;
    register_laws();
    Ok(register.number())
}

/// The width at the key `width`, 0 to 24 bytes.
pub fn width_at(table: &Table, place: TablePlace) -> Result<u8, WalkFault>
    ensures width { result ≡ width_at place (table_view table.now) }
    ensures fits { IfOk result (λ width. width ≤ 24) }
{
    let width = number_at(table, path_to(place, Key::Width), 0, 24)?;
    Ok(width as u8)
}

/// The number of the variable at the key `into`, 0 to 7.
pub fn into_at(table: &Table, place: TablePlace) -> Result<u8, WalkFault>
    ensures into { result ≡ into_at place (table_view table.now) }
    ensures fits { IfOk result (λ into. IsTrue (is_variable into)) }
{
    let variable: Variable = word_at(table, path_to(place, Key::Into))?;
    Ok(variable.number)
}

/// The list of handlers at the key `type`.
pub fn kind_at(table: &Table, place: TablePlace) -> Result<HandlerType, WalkFault>
    ensures { result ≡ kind_at place (table_view table.now) }
{
    word_at(table, path_to(place, Key::Type))
}
