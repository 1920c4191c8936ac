//! The worked examples of `docs/MODEL.md`, each beside one of another tenant.

use super::playing::{play_from_base, play_from_nothing};

const WORKED: &str = "\
North transfers 100: 1>2 100 pending; 101: post=100 40; 102: post=100 60 => clock 7: 0@5 0@6 32@7
South transfers 100: 1>2 100 pending timeout=1 => clock 5: 0@5
North see 1 => Ok((Some([0, 40, 0, 0]), Some(Posted), 7))
North see 2 => Ok((Some([0, 0, 0, 40]), Some(Posted), 7))
North transfers 101: post=100 40; 101: post=100 41 => clock 9: 18@8 12@9
South see 1 => Ok((Some([100, 0, 0, 0]), Some(Open), 5))
South transfers at 1000000003 101: post=100 MAX => clock 1000000004: 0@1000000004
South see 1 => Ok((Some([0, 100, 0, 0]), Some(Posted), 1000000004))
North see 1 => Ok((Some([0, 40, 0, 0]), Some(Posted), 9))

South transfers 100: 1>2 100 pending timeout=1 => clock 5: 0@5
North transfers at 2000000000 100: 1>2 10 linked; 101: 3>2 10 linked; 102: 1>4 10 => \
clock 2000000003: 2@2000000001 55@2000000002 2@2000000003
North see 1 => Ok((Some([0, 0, 0, 0]), None, 2000000003))
South see 1 => Ok((Some([100, 0, 0, 0]), Some(Open), 5))
South transfers at 1000000004 102: post=100 MAX => clock 1000000005: 34@1000000005
South see 1 => Ok((Some([0, 0, 0, 0]), Some(Expired), 1000000005))
North transfers 101: 1>2 1 => clock 2000000004: 60@2000000004
South transfers 101: 1>2 1 => clock 1000000006: 0@1000000006

North transfers 100: 1>2 10 linked; 101: 1>2 10 linked => clock 6: 2@5 1@6
South transfers 100: 1>2 MAX; 101: 1>2 1 => clock 6: 0@5 50@6
North see 1 => Ok((Some([0, 0, 0, 0]), None, 6))
South see 2 => Ok((Some([0, 0, 0, 340282366920938463463374607431768211455]), None, 6))

North transfers 100: 1>3 50; 101: 3>2 20; 102: 3>2 MAX flags=16 => clock 7: 0@5 0@6 0@7
South transfers 100: 1>2 70 flags=3; 101: post=100 MAX => clock 6: 0@5 0@6
North transfers 102: 3>2 29 flags=16 => clock 8: 12@8
North transfers 102: 3>2 30 flags=16 => clock 9: 18@9
South transfers 100: 1>2 70 flags=3; 101: post=100 MAX => clock 8: 18@7 2@8
North see 3 => Ok((Some([0, 50, 0, 50]), None, 9))
South see 2 => Ok((Some([0, 0, 0, 70]), Some(Posted), 8))

North transfers 100: 1>2 100 pending; 101: void=100 99; 101: void=100 0 => clock 7: 0@5 31@6 0@7
South transfers 100: 1>3 50; 101: 3>2 50 pending; 102: 3>2 1 => clock 7: 0@5 0@6 55@7
North see 1 => Ok((Some([0, 0, 0, 0]), Some(Voided), 7))
South see 3 => Ok((Some([50, 0, 0, 50]), None, 7))

North transfers 100: 3>2 MAX flags=16 => clock 5: 0@5
South transfers 100: 1>2 5 pending; 101: 2>0 post=100 5 => clock 6: 0@5 26@6
North see 3 => Ok((Some([0, 0, 0, 0]), None, 5))
South see 1 => Ok((Some([5, 0, 0, 0]), Some(Open), 6))

North transfers 1>2 1 flags=64 => clock 5: 4@5
South transfers 100: 1>2 MAX pending; 101: 1>2 1 pending; 102: 1>2 1; 103: 4>2 1 pending; \
104: 4>2 1 => clock 9: 0@5 48@6 52@7 49@8 53@9
South see 4 => Ok((Some([0, 0, 0, 0]), Some(Open), 9))

North transfers 100: 2>1 30; 101: 2>4 20; 102: 1>2 MAX flags=48; 103: 1>2 MAX flags=32 => \
clock 8: 0@5 0@6 0@7 0@8
South transfers 100: 1>9 1 linked; 101: 1>9 1 => clock 6: 45@5 2@6
North see 1 => Ok((Some([0, 50, 0, 30]), None, 8))
North see 2 => Ok((Some([0, 50, 0, 50]), None, 8))
South rows failed => 1 rows: 100

North transfers 100: 1>2 10 linked; 101: 1>9 10; 102: 1>2 5 => clock 7: 2@5 45@6 0@7
South transfers 100: 1>9 1 linked; 101: 1>2 1 linked; 102: 1>2 1 linked => clock 7: 45@5 2@6 1@7
North see 1 => Ok((Some([0, 5, 0, 0]), None, 7))
North rows failed => 1 rows: 101
South rows failed => 1 rows: 100

North transfers 100: 1>2 1 linked; 100: 1>2 1 => clock 6: 2@5 7@6
South transfers 100: 1>2 1 linked; 100: 1>2 1 linked; 101: 1>2 1 => clock 7: 2@5 18@6 2@7
North see 1 => Ok((Some([0, 0, 0, 0]), None, 6))
South see 1 => Ok((Some([0, 0, 0, 0]), None, 7))

North accounts 5 flags=1; 6 ledger=0 => clock 6: 2@5 19@6
South accounts 5 flags=4 => clock 5: 0@5
North see 5 => Ok((None, None, 6))
South transfers 100: 5>1 30; 101: 1>5 31; 102: 1>5 30 pending; 103: 1>5 1 => \
clock 9: 0@6 56@7 0@8 56@9
South rows failed => 2 rows: 101 103

North transfers 100: 1>2 MAX; 101: 4>2 1 => clock 6: 0@5 51@6
North see 4 => Ok((Some([0, 0, 0, 0]), None, 6))
North rows failed => 0 rows:";

/// The table of failed ids; an id that failed for one tenant is free for another.
const FAILED_IDS: &str = "\
North transfers 100: 9>2 10 => clock 5: 44@5
North accounts 9 => clock 6: 0@6
North transfers 100: 9>2 10 => clock 7: 60@7
North transfers 101: 9>2 10 => clock 8: 0@8
North transfers 102: post=77 5; 102: post=77 5 => clock 10: 24@9 60@10
North transfers 103: 1>2 1 linked; 104: 3>2 1 => clock 12: 2@11 55@12
North transfers 104: 1>2 1; 103: 1>2 1 => clock 14: 60@13 0@14
North transfers 104: 1>2 1 flags=64; 104: 1>2 1 flags=6 => clock 16: 4@15 60@16
North rows failed => 3 rows: 100 102 104
South transfers 100: 1>2 10 => clock 5: 0@5
South rows failed => 0 rows:";

#[test]
fn worked_examples(rt: HostRuntime) {
    play_from_base(&rt, rt.alloc(), WORKED);
    play_from_base(&rt, rt.alloc(), FAILED_IDS);
}

/// The rows that 'posted in part' leaves, and a chain that falls behind it: of that its clock and
/// its failed id. Then a batch that fails when it is done, and the end of the clock.
const ROWS: &str = "\
North transfers 100: 1>2 100 pending; 101: post=100 40; 102: post=100 60 => clock 7: 0@5 0@6 32@7
North transfers 104: 1>2 10 linked; 105: post=100 5 linked; 106: 3>2 1 => clock 10: 2@8 32@9 2@10
North transfers 104: 1>2 10 linked; 105: 1>2 9 flags=3; 106: 3>2 1 => clock 13: 2@11 2@12 55@13
North fail at 50 100: 1>2 10; 107: 9>2 1 => Err(Unavailable(Memory))
North transfers at 4611686018427387904 107: 1>2 10 => the clock is exhausted
North rows clock => 1 rows: 13
North rows account => 4 rows: (1, 7, 10, 0, 1) (2, 7, 10, 0, 2) (3, 7, 10, 10, 3) (4, 7, 10, 0, 4)
North rows transfer => 2 rows: ([100, 1, 2, 100, 0], 2, 5, 7) ([101, 1, 2, 40, 100], 4, 6, 7)
North rows balance => 4 rows: [1, 0, 40, 0, 0] [2, 0, 0, 0, 40] [3, 0, 0, 0, 0] [4, 0, 0, 0, 0]
North rows status => 1 rows: (100, 1, 0)
North rows history => 4 rows: (5, [1, 100, 0, 0, 0]) (6, [1, 0, 40, 0, 0]) \
(5, [2, 0, 0, 100, 0]) (6, [2, 0, 0, 0, 40])
North rows failed => 1 rows: 106
South rows clock => 1 rows: 4
South rows transfer => 0 rows:
South rows failed => 0 rows:
North directory => version 3: 1 North [1, 1] 2; 2 South [2, 2] 0;
North transfers at 4611686018427387904 => clock 4611686018427387904:
Nobody see 1 => Err(UnknownKey)
Nobody rows clock => no tenant";

#[test]
fn rows_of_two_tenants(rt: HostRuntime) {
    play_from_base(&rt, rt.alloc(), ROWS);
}

/// 'The clock never turns back', and what a name and a digest may be.
const DIRECTORY: &str = "\
File create => made
North ready => (true, 3)
North knows => Ok(false)
North digest => Ok(None)
North add 1 => Ok(())
North knows => Ok(true)
South knows => Ok(false)
North digest => Ok(Some(1))
South digest => Ok(None)
North add 1 => Err(NameTaken)
North add 2 => Err(NameTaken)
north add 1 => Err(DigestTaken)
north digest => Ok(None)
north add 2 => Ok(())
North digest => Ok(Some(1))
north digest => Ok(Some(2))
North accounts at 1000 => clock 1000:
North accounts at 1000 1; 2 => clock 1002: 0@1001 0@1002
North transfers at 5 100: 1>2 10 => clock 1003: 0@1003
South rows clock => 1 rows: 0";

#[test]
fn names_and_digests(rt: HostRuntime) {
    play_from_nothing(&rt, rt.alloc(), &[DIRECTORY]);
}
