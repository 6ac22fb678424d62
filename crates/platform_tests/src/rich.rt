// Each field of a platform that has every key, every operation and both kinds of procedure.
use cpu_table::{Act, Arrival, CauseAt, HandlerDef, Mode, OpDef, Operand, Policy, Setup, Wave};
use platform_file::read_platform;
use smm_base::{HandlerType, MapKind, Status};
use std::test::Fail;

const RICH: &str = "version = 1
processors = 4
map = \"intel64\"
policy = \"fixed\"
fixed = 3
mode = \"relaxed\"
polls = [8, 9]
visits = 5
ops = 64
ids = [16, 9223372036854775807, 0, 18]

[smram]
base = 524288
size = 1048576
tile = 2048
code = 1023

[[wave]]
status = [\"prompt\", \"delayed\", \"blocked\", \"absent\"]
manage = [\"root\", \"00112233-4455-6677-8899-aabbccddeeff\"]

[[wave]]
status = [\"absent\", \"prompt\", \"prompt\", \"delayed\"]
manage = []

[[wave]]
status = [\"delayed\", \"blocked\", \"absent\", \"prompt\"]
manage = [\"root\"]

[[handler]]
name = \"all\"
type = \"0f1e2d3c-4b5a-6978-8796-a5b4c3d2e1f0\"
answer = \"SOURCE_QUIESCED\"
ops = [
  {op = \"set\", into = \"v0\", value = 7},
  {op = \"read\", cpu = 10, reg = \"RAX\", width = 8, into = \"v1\"},
  {op = \"write\", cpu = 11, reg = \"IO_RESTART\", width = 4, value = \"v2\"},
  {op = \"start\", cpu = 12, procedure = \"load\", arg = \"0xFF\", into = \"v3\"},
  {op = \"launch\", cpu = 13, procedure = \"none\", arg = 5, into = \"v4\"},
  {op = \"check\", token = \"v5\"},
  {op = \"wait\", token = \"v6\", into = \"v7\"},
  {op = \"alloc\", size = 65, into = \"v6\"},
  {op = \"free\", place = \"v1\"},
  {op = \"register\", handler = \"idle\", type = \"root\", into = \"v2\"},
  {op = \"unregister\", handle = \"v4\"},
  {op = \"manage\", type = \"00112233-4455-6677-8899-aabbccddeeff\"},
]

[[handler]]
name = \"idle\"
type = \"none\"
answer = \"SOURCE_PENDING\"
ops = []

[[handler]]
name = \"first\"
type = \"root\"
answer = \"INTERRUPT_PENDING\"
ops = [{op = \"set\", into = \"v5\", value = \"0xfedcba9876543210\"}]

[[procedure]]
name = \"load\"
act = \"get\"
reg = \"RSP\"

[[procedure]]
name = \"store\"
act = \"put\"
reg = \"GDTBASE\"

[[cause]]
cpu = 2
visit = 4
halt = true
io = {port = 178, length = 2, type = 8}

[[cause]]
cpu = 0
visit = 1
";

fn numbers_are(setup: &Setup) -> bool {
    setup.processors == 4
        && setup.kind == MapKind::Intel64
        && setup.policy == Policy::Fixed(3)
        && setup.mode == Mode::Relaxed
        && setup.t1 == 8
        && setup.t2 == 9
        && setup.visits == 5
        && setup.ops == 64
}

fn ids_are(setup: &Setup) -> bool {
    setup.ids.len() == 4
        && setup.ids.id_of(0) == Some(16)
        && setup.ids.id_of(1) == Some(9223372036854775807)
        && setup.ids.id_of(2) == Some(0)
        && setup.ids.id_of(3) == Some(18)
}

fn area_is(setup: &Setup) -> bool {
    match &setup.smram {
        Some(area) => {
            area.base == 524288 && area.size == 1048576 && area.tile == 2048 && area.code == 1023
        }
        None => false,
    }
}

// The list of the GUID with all 16 bytes different.
const GUID: HandlerType = HandlerType::Typed(0x00112233445566778899aabbccddeeff);

fn wave_is(wave: &Wave, status: &[Arrival], manage: &[HandlerType]) -> bool {
    wave.status.as_slice() == status && wave.manage.as_slice() == manage
}

fn waves_are(setup: &Setup) -> bool {
    let [first, second, third] = setup.waves.as_slice() else {
        return false;
    };
    wave_is(
        first,
        &[
            Arrival::Prompt,
            Arrival::Delayed,
            Arrival::Blocked,
            Arrival::Absent,
        ],
        &[HandlerType::Root, GUID],
    ) && wave_is(
        second,
        &[
            Arrival::Absent,
            Arrival::Prompt,
            Arrival::Prompt,
            Arrival::Delayed,
        ],
        &[],
    ) && wave_is(
        third,
        &[
            Arrival::Delayed,
            Arrival::Blocked,
            Arrival::Absent,
            Arrival::Prompt,
        ],
        &[HandlerType::Root],
    )
}

// Those that name a processor.
fn processor_operation_is(at: usize, operation: &OpDef) -> bool {
    match operation {
        OpDef::Read {
            cpu,
            reg,
            width,
            into,
        } => at == 1 && *cpu == 10 && *reg == 38 && *width == 8 && *into == 1,
        OpDef::Write {
            cpu,
            reg,
            width,
            value,
        } => {
            at == 2 && *cpu == 11 && *reg == 1025 && *width == 4 && *value == Operand::Variable(2)
        }
        OpDef::Start {
            cpu,
            procedure,
            arg,
            into,
        } => {
            at == 3
                && *cpu == 12
                && procedure.as_str() == "load"
                && *arg == Operand::Number(255)
                && *into == 3
        }
        OpDef::Launch {
            cpu,
            procedure,
            arg,
            into,
        } => {
            at == 4
                && *cpu == 13
                && procedure.as_str() == "none"
                && *arg == Operand::Number(5)
                && *into == 4
        }
        _ => false,
    }
}

// Is the operation at this place of the first handler the one that the file has there?
fn operation_is(at: usize, operation: &OpDef) -> bool {
    match operation {
        OpDef::Set { into, value } => at == 0 && *into == 0 && *value == Operand::Number(7),
        OpDef::Check { token } => at == 5 && *token == Operand::Variable(5),
        OpDef::Wait { token, into } => at == 6 && *token == Operand::Variable(6) && *into == 7,
        OpDef::Alloc { size, into } => at == 7 && *size == Operand::Number(65) && *into == 6,
        OpDef::Free { place } => at == 8 && *place == Operand::Variable(1),
        OpDef::Register {
            handler,
            kind,
            into,
        } => at == 9 && *handler == 1 && *kind == HandlerType::Root && *into == 2,
        OpDef::Unregister { handle } => at == 10 && *handle == Operand::Variable(4),
        OpDef::Manage { kind } => at == 11 && *kind == GUID,
        _ => processor_operation_is(at, operation),
    }
}

fn all_is(handler: &HandlerDef) -> bool {
    handler.name.as_str() == "all"
        && handler.kind == Some(HandlerType::Typed(0x0f1e2d3c4b5a69788796a5b4c3d2e1f0))
        && handler.answer == Status::SourceQuiesced
        && handler.ops.len() == 12
        && handler
            .ops
            .iter()
            .enumerate()
            .all(|(at, operation)| operation_is(at, operation))
}

fn idle_is(handler: &HandlerDef) -> bool {
    handler.name.as_str() == "idle"
        && handler.kind == None
        && handler.answer == Status::SourcePending
        && handler.ops.is_empty()
}

fn first_is(handler: &HandlerDef) -> bool {
    let [OpDef::Set { into, value }] = handler.ops.as_slice() else {
        return false;
    };
    handler.name.as_str() == "first"
        && handler.kind == Some(HandlerType::Root)
        && handler.answer == Status::InterruptPending
        && *into == 5
        && *value == Operand::Number(0xfedcba9876543210)
}

fn handlers_are(setup: &Setup) -> bool {
    let [all, idle, first] = setup.handlers.as_slice() else {
        return false;
    };
    all_is(all) && idle_is(idle) && first_is(first)
}

fn procedures_are(setup: &Setup) -> bool {
    let [load, store] = setup.procedures.as_slice() else {
        return false;
    };
    load.name.as_str() == "load"
        && load.act == Act::Get
        && load.reg == 42
        && store.name.as_str() == "store"
        && store.act == Act::Put
        && store.reg == 4
}

fn first_cause_is(first: &CauseAt) -> bool {
    let Some(io) = &first.cause.io else {
        return false;
    };
    first.cpu == 2
        && first.visit == 4
        && first.cause.halt
        && io.port == 178
        && io.length == 2
        && io.kind == 8
}

fn causes_are(setup: &Setup) -> bool {
    let [first, second] = setup.causes.as_slice() else {
        return false;
    };
    first_cause_is(first)
        && second.cpu == 0
        && second.visit == 1
        && !second.cause.halt
        && second.cause.io.is_none()
}

// The first part of a setup that differs from the file's, or `none`.
fn difference(setup: &Setup) -> &'static str {
    if !numbers_are(setup) {
        "numbers"
    } else if !ids_are(setup) {
        "ids"
    } else if !area_is(setup) {
        "smram"
    } else if !waves_are(setup) {
        "waves"
    } else if !handlers_are(setup) {
        "handlers"
    } else if !procedures_are(setup) {
        "procedures"
    } else if !causes_are(setup) {
        "causes"
    } else {
        "none"
    }
}

#[test]
fn each_field_of_a_platform_and_of_its_copy_is_the_files(rt: HostRuntime) -> Result<(), Fail> {
    let setup = read_platform(rt.alloc(), RICH.as_bytes())?;
    assert_eq!(rt; difference(&setup), "none");
    let copy = setup.copy()?;
    assert_eq!(rt; difference(&copy), "none");
    Ok(())
}
