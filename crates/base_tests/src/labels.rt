use std::fmt::Write;
use std::test::Fail;
use sync_words::{After, HandlerType, Label, Register, StartRefusal, Status};

const GUID: u128 = 0x0011_2233_4455_6677_8899_aabb_ccdd_eeff;

// The labels of the rendezvous and of the way out.
static RENDEZVOUS: [Label; 24] = [
    Label::Silent,
    Label::Excepted(0),
    Label::Wave(1),
    Label::Enter,
    Label::Turn,
    Label::Arrive,
    Label::Late,
    Label::Elect,
    Label::Served(2),
    Label::Gather(3),
    Label::Ready(4),
    Label::Expire(1),
    Label::Quit,
    Label::Report,
    Label::Close(5),
    Label::Done,
    Label::Release(6),
    Label::Depart,
    Label::End,
    Label::Resume(After::Halt),
    Label::Resume(After::Next),
    Label::Resume(After::Retry),
    Label::Collect(7),
    Label::Off,
];

const RENDEZVOUS_TEXT: &str = "\
-\n\
excepted:0\n\
wave:1\n\
enter\n\
turn\n\
arrive\n\
late\n\
elect\n\
served:2\n\
gather:3\n\
ready:4\n\
expire:1\n\
quit\n\
report\n\
close:5\n\
done\n\
release:6\n\
depart\n\
end\n\
resume:halt\n\
resume:next\n\
resume:retry\n\
collect:7\n\
off\n\
";

// The labels of serving, but for the causes of a refused start.
static SERVING: [Label; 19] = [
    Label::Begin(2),
    Label::Manage(HandlerType::Root),
    Label::Deep(HandlerType::Typed(GUID)),
    Label::Call(7),
    Label::Return {
        handler: 7,
        status: Status::Success,
    },
    Label::Answer(Status::NotFound),
    Label::Set {
        variable: 3,
        value: 18446744073709551615,
    },
    Label::Read {
        cpu: 2,
        register: Register::ProcessorId,
        width: 8,
        value: 5627,
        status: Status::Success,
    },
    Label::Write {
        cpu: 2,
        register: Register::LdtrSel,
        width: 4,
        value: 258,
        status: Status::AccessDenied,
    },
    Label::Check {
        job: 5,
        status: Status::NotReady,
    },
    Label::Wait {
        job: 1,
        result_value: 42,
        status: Status::Timeout,
    },
    Label::Alloc {
        size: 64,
        place: 557056,
        status: Status::Aborted,
    },
    Label::Free {
        place: 557056,
        status: Status::InvalidParameter,
    },
    Label::Register {
        handler: 1,
        serial: 0,
        status: Status::OutOfResources,
    },
    Label::Unregister {
        handle: 9,
        status: Status::InterruptPending,
    },
    Label::Start {
        cpu: 1,
        job: 2,
        procedure: 0,
        arg: 3,
    },
    Label::Run {
        job: 1,
        result_value: 42,
        status: Status::SourcePending,
    },
    Label::Answer(Status::SourceQuiesced),
    Label::Spent,
];

const SERVING_TEXT: &str = "\
begin:2\n\
manage:root\n\
deep:00112233-4455-6677-8899-aabbccddeeff\n\
call:7\n\
return:7:SUCCESS\n\
answer:NOT_FOUND\n\
set:3:18446744073709551615\n\
read:2:PROCESSOR_ID:8:5627:SUCCESS\n\
write:2:LDTR_SEL:4:258:ACCESS_DENIED\n\
check:5:NOT_READY\n\
wait:1:42:TIMEOUT\n\
alloc:64:557056:ABORTED\n\
free:557056:INVALID_PARAMETER\n\
register:1:0:OUT_OF_RESOURCES\n\
unregister:9:INTERRUPT_PENDING\n\
start:1:2:0:3\n\
run:1:42:SOURCE_PENDING\n\
answer:SOURCE_QUIESCED\n\
spent\n\
";

// The causes of a refused start, in the order in which they are tested.
static CAUSES: [StartRefusal; 6] = [
    StartRefusal::OutOfRange,
    StartRefusal::BootProcessor,
    StartRefusal::UnknownProcedure,
    StartRefusal::Tokens,
    StartRefusal::Busy,
    StartRefusal::Absent,
];

const CAUSES_TEXT: &str = "\
refuse:1:range\n\
refuse:1:self\n\
refuse:1:unknown\n\
refuse:1:tokens\n\
refuse:1:busy\n\
refuse:1:absent\n\
";

#[test]
fn each_label_has_its_spelling(rt: HostRuntime) -> Result<(), Fail> {
    let mut told = String::new(rt.alloc());
    for label in RENDEZVOUS.iter() {
        writeln!(told, "{label}")?;
    }
    assert_eq!(rt; told.as_str(), RENDEZVOUS_TEXT);
    told.clear();
    for label in SERVING.iter() {
        writeln!(told, "{label}")?;
    }
    assert_eq!(rt; told.as_str(), SERVING_TEXT);
    told.clear();
    for cause in CAUSES.iter() {
        let label = Label::Refuse {
            cpu: 1,
            cause: *cause,
        };
        writeln!(told, "{label}")?;
    }
    assert_eq!(rt; told.as_str(), CAUSES_TEXT);
    Ok(())
}
