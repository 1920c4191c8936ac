//! Copies, which take long.
use super::steps::Step::{Answers, AnswersCopy, Calls, Hears, IsBusy, Orders, Sends, Tells};
use super::steps::{Step, play};
use command_texts::Fault;
use control::{Call, copied_body, copied_in};
use std::test::Fail;

const COPIES: Call<'static> = Call::Copy {
    to: "/backup/ledger.db",
};

const MESSAGE: &str = "POST /control/copy HTTP/1.1\r\nHost: x\r\nContent-Length: 28\r\n\r\n\
    {\"to\" : \"/backup/ledger.db\"}";

const COPIED: &str = "HTTP/1.1 200 OK\r\ncontent-length: 18\r\n\
    content-type: application/json\r\nconnection: close\r\n\r\n{\"copied\":\"81920\"}";

// Others are answered while somebody waits for a copy, however long that takes.
const MEANWHILE: [Step; 15] = [
    Sends(MESSAGE),
    Orders(1, Some(COPIES)),
    Orders(1, None),
    IsBusy(false),
    Calls(Call::Status),
    Orders(1_000, Some(Call::Status)),
    Answers(1_000, Ok("{}")),
    Tells(1, Ok("{}")),
    Orders(3_000, None),
    AnswersCopy(3_000, Ok("{\"copied\":\"81920\"}")),
    Hears(0, COPIED),
    Calls(COPIES),
    Orders(3_001, Some(COPIES)),
    AnswersCopy(3_001, Err(Fault::Exists)),
    Tells(2, Err(Fault::Exists)),
];

// There is one copy at a time. Who asks for another is refused, and who asks behind them is heard.
const A_SECOND: [Step; 10] = [
    Calls(COPIES),
    Calls(COPIES),
    Calls(Call::Tenants),
    Orders(1, Some(COPIES)),
    Orders(1, Some(Call::Tenants)),
    Answers(1, Ok("{}")),
    Tells(1, Err(Fault::Unavailable)),
    Tells(2, Ok("{}")),
    AnswersCopy(2, Ok("{\"copied\":\"1\"}")),
    Tells(0, Ok("{\"copied\":\"1\"}")),
];

// At the end a copy that is not made is refused.
const UNMADE: [Step; 4] = [
    Calls(COPIES),
    Calls(Call::Stop),
    Orders(1, Some(COPIES)),
    Orders(1, Some(Call::Stop)),
];

const AT_THE_END: [Step; 2] = [
    Tells(0, Err(Fault::Unavailable)),
    Tells(1, Ok("{\"stopped\":true}")),
];

#[test]
fn answers_copies_and_refuses_them(rt: HostRuntime) -> Result<(), Fail> {
    play(&rt, "copy.control", &MEANWHILE, &[])?;
    play(&rt, "second.control", &A_SECOND, &[])?;
    play(&rt, "cut.control", &UNMADE, &AT_THE_END)
}

// What a body tells of a copy.
#[test]
fn reads_how_many_bytes_are_copied(rt: HostRuntime) -> Result<(), Fail> {
    let body = copied_body(rt.alloc(), u64::MAX)?;
    let digits = copied_in(rt.alloc(), body.as_slice())?;
    assert_eq!(rt; digits.as_str(), "18446744073709551615");
    let others = [
        "",
        "{}",
        "{\"copied\":81920}",
        "{\"copied\":\"\"}",
        "{\"copied\":\"+1\"}",
        "{\"copied\":\"01\"}",
        "{\"copied\":\"18446744073709551616\"}",
        "{\"to\":\"81920\"}",
    ];
    for other in others {
        let told = copied_in(rt.alloc(), other.as_bytes());
        assert!(rt; matches!(told, Err(Fault::Unavailable)), "of {other}");
    }
    Ok(())
}
