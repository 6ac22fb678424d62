ghost use Rattle.std.specs.Prelude.{◌≡◌, ◌+◌, ◌*◌, ◌<◌, ◌≤◌, length, IfSome};
ghost use Rattle.smram_pool.specs.Views.{first_run, filled};

/// The first index at which `count` flags in a row are true.
pub fn find_run(flags: &[bool], count: usize) -> Option<usize>
    requires { 0 < count }
    ensures run { result ≡ first_run count flags.now }
    ensures within { IfSome result (λ index. index + count ≤ length flags.now) }
{
    let mut length = 0;
    for (index, flag) in flags.iter().enumerate() {
        if *flag {
            length += 1;
            if length == count {
                return Some(index + 1 - count);
            }
        } else {
            length = 0;
        }
    }
    None
}

/// Gives `count` flags from `index` on this value.
pub fn fill(flags: &mut [bool], index: usize, count: usize, value: bool)
    requires { index + count ≤ length flags.old }
    ensures { flags.new ≡ filled index count value flags.old }
{
    for i in 0..count {
        flags[index + i] = value;
    }
}
