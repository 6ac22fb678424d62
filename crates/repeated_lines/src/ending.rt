ghost use Rattle.std.specs.Prelude.{◌≡◌, ◌≤◌, ◌<◌, ◌+◌, [], ◌∷◌, ◌++◌, drop, length, IfSome};
ghost use Rattle.smm_base.specs.Status.{status_text};
ghost use Rattle.sync_words.specs.Texts.{colon, line_end};
ghost use Rattle.repeated_lines.specs.Parts.{number_then, start_ending, result_ending, ending};

use smm_base::Status;
use sync_words::Label;

/// Room for a line that is put together from its end, with its line end.
pub(crate) const ROOM: usize = 160;

/// Puts a text before what stands at the end, and says where it begins.
pub(crate) fn put_text(text: &[u8], line: &mut [u8; 160], end: usize) -> usize
    requires { (length text.now ≤ end) × (end ≤ 160) }
    ensures start { result + length text.now ≡ end }
    ensures text { drop result line.new ≡ text.now ++ drop end line.old }
{
    let start = end - text.len();
    line[start..end].copy_from_slice(text);
    start
}

// Puts a colon before what stands at the end.
fn put_colon(line: &mut [u8; 160], end: usize) -> usize
    requires { (1 ≤ end) × (end ≤ 160) }
    ensures start { result + 1 ≡ end }
    ensures text { drop result line.new ≡ colon ∷ drop end line.old }
{
    line[end - 1] = b':';
    end - 1
}

// Puts a number with its colon before what stands at the end.
fn put_number(number: u64, line: &mut [u8; 160], end: usize) -> usize
    requires { (21 ≤ end) × (end ≤ 160) }
    ensures start { (end ≤ result + 21) × (result < end) }
    ensures text { drop result line.new ≡ number_then number (drop end line.old) }
{
    let start = itoa::write_digits(number, line, end);
    put_colon(line, start)
}

// Puts a status with its colon before what stands at the end.
fn put_status(status: Status, line: &mut [u8; 160], end: usize) -> usize
    requires { (31 ≤ end) × (end ≤ 160) }
    ensures start { (end ≤ result + 31) × (result < end) }
    ensures text { drop result line.new ≡ colon ∷ (status_text status ++ drop end line.old) }
{
    let start = put_text(status.name().as_bytes(), line, end);
    put_colon(line, start)
}

// Puts a job, its result and its status before the line end.
fn put_result(job: u64, value: u64, status: Status, line: &mut [u8; 160]) -> usize
    requires { drop 159 line.old ≡ line_end ∷ [] }
    ensures start { (64 ≤ result) × (result ≤ 160) }
    ensures text { drop result line.new ≡ result_ending job value status }
{
    let end = put_status(status, line, ROOM - 1);
    let end = put_number(value, line, end);
    put_number(job, line, end)
}

// Puts a job, its procedure and its argument before the line end.
fn put_start(job: u32, procedure: u16, arg: u64, line: &mut [u8; 160]) -> usize
    requires { drop 159 line.old ≡ line_end ∷ [] }
    ensures start { (64 ≤ result) × (result ≤ 160) }
    ensures text { drop result line.new ≡ start_ending job procedure arg }
{
    let end = put_number(arg, line, ROOM - 1);
    let end = put_number(u64::from(procedure), line, end);
    put_number(u64::from(job), line, end)
}

/// Puts what follows the opening before the line end, and says where it begins; nothing of a label without a job.
pub(crate) fn put_ending(label: &Label, line: &mut [u8; 160]) -> Option<usize>
    requires { drop 159 line.old ≡ line_end ∷ [] }
    ensures start { IfSome result (λ start. (64 ≤ start) × (start ≤ 160)) }
    ensures text { IfSome result (λ start. drop start line.new ≡ ending label.now) }
{
    match label {
        Label::Start {
            job,
            procedure,
            arg,
            ..
        } => Some(put_start(*job, *procedure, *arg, line)),
        Label::Run {
            job,
            result_value,
            status,
        } => Some(put_result(u64::from(*job), *result_value, *status, line)),
        Label::Wait {
            job,
            result_value,
            status,
        } => Some(put_result(*job, *result_value, *status, line)),
        _ => None,
    }
}
