ghost use Rattle.std.specs.Prelude.{ℕ, ◌≡◌, List, Ok};
ghost use Rattle.cpu_table.specs.Data.{SetupData};
ghost use Rattle.platform_file.specs.Walk.{setup_read};
ghost use Rattle.report_laws.specs.Widths.{NumbersFit};

use platform_laws::platform_laws;

/// What is known of the numbers of each platform that is read from a file: an operation's number has 64 bits, a processor's 16,
/// and a GUID 128. It does nothing when it runs.
pub fn file_numbers()
    ensures fit { (bytes : List ℕ) (d : SetupData) → setup_read bytes ≡ Ok d → NumbersFit d }
{
    platform_laws();
}
