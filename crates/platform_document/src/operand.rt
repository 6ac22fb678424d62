ghost use Rattle.std.specs.Prelude.{◌≡◌, ◌<◌, IfOk, IfSome, IsTrue};
ghost use Rattle.std.specs.Char.{is_digit};
ghost use Rattle.std.specs.List.{list_all};
ghost use Rattle.toml.specs.View.{view, table_view};
ghost use Rattle.cpu_table.specs.Ranges.{is_operand, is_variable};
ghost use Rattle.platform_document.specs.Words.{variable_of, are_digits, number_of_digits, hexadecimal_of, operand_of};
ghost use Rattle.platform_document.specs.Operands.{operand_number, operand_text, operand_value, operand_at};

use crate::document::{GREATEST, member, number_within};
use crate::fault::WalkFault;
use crate::path::Path;
use crate::word::Word;
use cpu_table::Operand;
use toml::{Table, Value};

/// One of the eight variables of a session.
#[derive(Clone, Copy)]
pub struct Variable {
    /// 0 to 7.
    pub number: u8,
}

// One of the variables `v0` to `v7`.
fn variable_of(text: &str) -> Option<Variable>
    ensures variable { result ≡ variable_of text.now }
    ensures there { IfSome result (λ variable. IsTrue (is_variable variable.number)) }
{
    let number = match text {
        "v0" => 0,
        "v1" => 1,
        "v2" => 2,
        "v3" => 3,
        "v4" => 4,
        "v5" => 5,
        "v6" => 6,
        "v7" => 7,
        _ => return None,
    };
    Some(Variable { number })
}

impl Word for Variable {
    ghost meaning = { variable_of };

    fn of(text: &str) -> Option<Self> {
        variable_of(text)
    }
}

// Is each byte a hexadecimal digit?
fn are_hexadecimal(digits: &[u8]) -> bool
    ensures { result ≡ list_all (λ c. is_digit c 16) digits.now }
{
    digits.iter().all(|digit| char::from(*digit).is_digit(16))
}

// Are these 1 to 16 hexadecimal digits?
fn are_digits(digits: &[u8]) -> bool
    ensures { result ≡ are_digits digits.now }
{
    let count = digits.len();
    1 <= count && count <= 16 && are_hexadecimal(digits)
}

// The number of 1 to 16 hexadecimal digits.
fn number_of_digits(digits: &str) -> Option<u64>
    ensures { result ≡ number_of_digits digits.now }
{
    if !are_digits(digits.as_bytes()) {
        return None;
    }
    match u64::from_str_radix(digits, 16) {
        Ok(number) => Some(number),
        Err(_) => unreachable!(),
    }
}

// The number of `0x` and such digits.
fn hexadecimal_of(text: &str) -> Option<u64>
    ensures { result ≡ hexadecimal_of text.now }
{
    match text.strip_prefix("0x") {
        Some(digits) => number_of_digits(digits),
        None => None,
    }
}

// An operand as a text: a variable, or a hexadecimal number.
fn operand_of(text: &str) -> Option<Operand>
    ensures operand { result ≡ operand_of text.now }
    ensures fits { IfSome result (λ operand. IsTrue (is_operand operand)) }
{
    match variable_of(text) {
        Some(variable) => Some(Operand::Variable(variable.number)),
        None => match hexadecimal_of(text) {
            Some(number) => Some(Operand::Number(number)),
            None => None,
        },
    }
}

// An operand as an integer from 0.
fn operand_number(number: i64, path: Path) -> Result<Operand, WalkFault>
    ensures operand { result ≡ operand_number path number }
    ensures fits { IfOk result (λ operand. IsTrue (is_operand operand)) }
{
    let number = number_within(number, path, 0, GREATEST)?;
    Ok(Operand::Number(number))
}

// An operand as a text.
fn operand_text(text: &str, path: Path) -> Result<Operand, WalkFault>
    ensures operand { result ≡ operand_text path (Some text.now) }
    ensures fits { IfOk result (λ operand. IsTrue (is_operand operand)) }
{
    match operand_of(text) {
        Some(operand) => Ok(operand),
        None => Err(WalkFault::Word(path)),
    }
}

// The operand of a value.
fn operand_value(value: &Value, path: Path) -> Result<Operand, WalkFault>
    ensures operand { result ≡ operand_value path (view value.now) }
    ensures fits { IfOk result (λ operand. IsTrue (is_operand operand)) }
{
    if let Some(number) = value.as_integer() {
        return operand_number(number, path);
    }
    match value.as_str() {
        Some(text) => operand_text(text, path),
        None => Err(WalkFault::WrongType(path)),
    }
}

/// The operand at a key.
pub fn operand_at(table: &Table, path: Path) -> Result<Operand, WalkFault>
    ensures operand { result ≡ operand_at path (table_view table.now) }
    ensures fits { IfOk result (λ operand. IsTrue (is_operand operand)) }
{
    match member(table, path) {
        Some(value) => operand_value(value, path),
        None => Err(WalkFault::Missing(path)),
    }
}
