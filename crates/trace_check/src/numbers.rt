ghost use Rattle.std.specs.Prelude.{◌≡◌};
ghost use Rattle.trace_check.specs.Verdicts.{rule_of};

use sync_words::Label;

/// The number of the label's rule, and 0 for the silent label, which has none.
pub fn rule_of(label: Label) -> u8
    ensures { result ≡ rule_of label }
{
    match label {
        Label::Silent => 0,
        Label::Excepted(_) => 1,
        Label::Wave(_) => 2,
        Label::Enter => 3,
        Label::Turn => 4,
        Label::Arrive => 5,
        Label::Late => 6,
        Label::Elect => 7,
        Label::Served(_) => 8,
        Label::Gather(_) => 9,
        Label::Ready(_) => 10,
        Label::Expire(_) => 11,
        Label::Quit => 12,
        Label::Report => 13,
        Label::Close(_) => 14,
        Label::Begin(_) => 15,
        Label::Manage(_) | Label::Deep(_) => 16,
        Label::Call(_) => 17,
        Label::Return { .. } => 18,
        Label::Answer(_) => 19,
        Label::Refuse { .. } => 21,
        Label::Start { .. } => 22,
        Label::Run { .. } => 23,
        Label::Collect(_) => 24,
        Label::Spent => 25,
        Label::Done => 26,
        Label::Release(_) => 27,
        Label::Depart => 28,
        Label::End => 29,
        Label::Resume(_) => 30,
        Label::Off => 31,
        _ => 20,
    }
}
