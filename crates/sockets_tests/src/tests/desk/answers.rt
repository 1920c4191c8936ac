//! Orders and their answers.
use super::steps::Step::{Answers, Calls, Hears, IsBusy, Orders, Sends, SendsOn, Tells};
use super::steps::{Step, play};
use command_texts::Fault;
use control::Call;
use std::test::Fail;

const ADDS: Call<'static> = Call::AddTenant {
    name: "north-desk",
    key: "00112233445566778899aabbccddeeff00112233445566778899AABBCCDDEEFF",
};

const CHANGES: Call<'static> = Call::ChangeKey {
    name: "north-desk",
    key: "00112233445566778899aabbccddeeff00112233445566778899AABBCCDDEEFF",
};

// What each call orders.
const EACH: [Step; 16] = [
    Calls(Call::Tenants),
    Orders(1, Some(Call::Tenants)),
    Answers(1, Ok("{\"a\":[]}")),
    Tells(0, Ok("{\"a\":[]}")),
    Calls(ADDS),
    Orders(1, Some(ADDS)),
    Answers(1, Ok("{\"a\":[]}")),
    Tells(1, Ok("{\"a\":[]}")),
    Calls(CHANGES),
    Orders(1, Some(CHANGES)),
    Answers(1, Ok("{\"a\":[]}")),
    Tells(2, Ok("{\"a\":[]}")),
    Calls(Call::Status),
    Orders(1, Some(Call::Status)),
    Answers(1, Ok("{\"a\":[]}")),
    Tells(3, Ok("{\"a\":[]}")),
];

const HEAD: &str = "POST /control/tenants HTTP/1.1\r\nHost: x\r\nUser-Agent: curl/8.5.0\r\n\
    Accept: */*\r\nContent-Length: 97\r\nContent-Type: application/x-www-form-urlencoded\r\n\r\n";

const BODY: &str = "{ \"key\": \
    \"00112233445566778899aabbccddeeff00112233445566778899AABBCCDDEEFF\", \
    \"name\":\"north-desk\"}";

const ADDED: &str = "HTTP/1.1 200 OK\r\ncontent-length: 22\r\n\
    content-type: application/json\r\nconnection: close\r\n\r\n{\"added\":\"north-desk\"}";

const TAKEN: &str = "HTTP/1.1 409 Conflict\r\ncontent-length: 22\r\n\
    content-type: application/json\r\nconnection: close\r\n\r\n{\"error\":\"name_taken\"}";

// A message in pieces, as `curl` writes it, and the whole bytes of two replies.
const IN_PIECES: [Step; 11] = [
    Sends(HEAD),
    Orders(1, None),
    IsBusy(true),
    SendsOn(0, BODY),
    Orders(1, Some(ADDS)),
    Answers(1, Ok("{\"added\":\"north-desk\"}")),
    Hears(0, ADDED),
    Calls(ADDS),
    Orders(1, Some(ADDS)),
    Answers(1, Err(Fault::NameTaken)),
    Hears(1, TAKEN),
];

// Those who came first are answered first.
const IN_TURN: [Step; 11] = [
    Calls(Call::Tenants),
    Calls(Call::Status),
    Orders(1, Some(Call::Tenants)),
    Answers(1, Err(Fault::Unavailable)),
    IsBusy(true),
    Orders(1, Some(Call::Status)),
    Answers(1, Ok("{}")),
    Orders(1, None),
    IsBusy(false),
    Tells(0, Err(Fault::Unavailable)),
    Tells(1, Ok("{}")),
];

// Nobody is told the answer to another one's order.
const UNANSWERED: [Step; 7] = [
    Calls(Call::Tenants),
    Calls(Call::Status),
    Orders(1, Some(Call::Tenants)),
    Orders(1, Some(Call::Status)),
    Answers(1, Ok("{}")),
    Hears(0, ""),
    Tells(1, Ok("{}")),
];

// Eight are connected at once. The ninth is heard once one of them has gone.
const EIGHT: [Step; 25] = [
    Sends("GET /"),
    Sends("GET /"),
    Sends("GET /"),
    Sends("GET /"),
    Sends("GET /"),
    Sends("GET /"),
    Sends("GET /"),
    Sends("GET /"),
    Calls(Call::Status),
    Orders(1, None),
    Orders(10, None),
    IsBusy(true),
    Orders(11, None),
    IsBusy(true),
    Orders(11, Some(Call::Status)),
    Answers(11, Ok("{}")),
    Tells(8, Ok("{}")),
    Hears(0, ""),
    Hears(1, ""),
    Hears(2, ""),
    Hears(3, ""),
    Hears(4, ""),
    Hears(5, ""),
    Hears(6, ""),
    Hears(7, ""),
];

#[test]
fn gives_orders_and_answers(rt: HostRuntime) -> Result<(), Fail> {
    for (path, steps) in [
        ("orders.control", EACH.as_slice()),
        ("pieces.control", &IN_PIECES),
        ("turns.control", &IN_TURN),
        ("unanswered.control", &UNANSWERED),
        ("eight.control", &EIGHT),
    ] {
        play(&rt, path, steps, &[])?;
    }
    Ok(())
}
