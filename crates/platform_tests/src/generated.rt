use cpu_table::{HandlerDef, OpDef, Setup, Wave};
use platform_file::read_platform;
use platform_gen::{generate, generated_text};
use smm_base::NoMemory;
use std::alloc::Global;
use std::test::Fail;

fn same_numbers(a: &Setup, b: &Setup) -> bool {
    a.processors == b.processors
        && a.kind == b.kind
        && a.policy == b.policy
        && a.mode == b.mode
        && a.t1 == b.t1
        && a.t2 == b.t2
        && a.visits == b.visits
        && a.ops == b.ops
        && a.smram.is_none()
        && b.smram.is_none()
}

fn same_ids(a: &Setup, b: &Setup) -> bool {
    a.ids.len() == b.ids.len() && (0..a.processors).all(|n| a.ids.id_of(n) == b.ids.id_of(n))
}

fn same_wave(a: &Wave, b: &Wave) -> bool {
    a.status.as_slice() == b.status.as_slice() && a.manage.as_slice() == b.manage.as_slice()
}

// Are both the same write? No other operation is generated.
fn same_op(a: &OpDef, b: &OpDef) -> bool {
    let OpDef::Write {
        cpu,
        reg,
        width,
        value,
    } = a
    else {
        return false;
    };
    let OpDef::Write {
        cpu: other_cpu,
        reg: other_reg,
        width: other_width,
        value: other_value,
    } = b
    else {
        return false;
    };
    *cpu == *other_cpu && *reg == *other_reg && *width == *other_width && *value == *other_value
}

fn same_handler(a: &HandlerDef, b: &HandlerDef) -> bool {
    a.name.as_str() == b.name.as_str()
        && a.kind == b.kind
        && a.answer == b.answer
        && a.ops.len() == b.ops.len()
        && a.ops.iter().zip(b.ops.iter()).all(|(a, b)| same_op(a, b))
}

fn same_lists(a: &Setup, b: &Setup) -> bool {
    a.waves.len() == b.waves.len()
        && a.waves
            .iter()
            .zip(b.waves.iter())
            .all(|(a, b)| same_wave(a, b))
        && a.handlers.len() == b.handlers.len()
        && a.handlers
            .iter()
            .zip(b.handlers.iter())
            .all(|(a, b)| same_handler(a, b))
        && a.procedures.is_empty()
        && b.procedures.is_empty()
        && a.causes.is_empty()
        && b.causes.is_empty()
}

fn same_setup(a: &Setup, b: &Setup) -> bool {
    same_numbers(a, b) && same_ids(a, b) && same_lists(a, b)
}

// Is the file read as the setup that is generated?
fn is_read_back(alloc: Global, seed: u32, n: u16) -> Result<bool, NoMemory> {
    if n < 1 || n > 64 {
        return Ok(false);
    }
    let text = generated_text(alloc, seed, n)?;
    let setup = generate(alloc, seed, n)?;
    match read_platform(alloc, text.as_slice()) {
        Ok(read) => Ok(same_setup(&read, &setup)),
        Err(_) => Ok(false),
    }
}

fn are_read_back(alloc: Global, seed: u32) -> Result<bool, NoMemory> {
    Ok(
        is_read_back(alloc, seed, 1)?
            && is_read_back(alloc, seed, 2)?
            && is_read_back(alloc, seed, 9)?
            && is_read_back(alloc, seed, 64)?,
    )
}

#[test]
fn generated_files_are_read_back(rt: HostRuntime) -> Result<(), Fail> {
    for seed in 0..10 {
        assert!(rt; are_read_back(rt.alloc(), seed)?, "seed {seed}");
    }
    Ok(())
}
