//! The worked examples of `docs/MODEL.md` that stand in its first and second table.

/// How many tenants send the examples; each begins with the four accounts.
pub const TENANTS: u64 = 26;

pub const EXAMPLES: &str = r#"posted in time
0@0 transfers 100 1 2 100 2 0 1 = 0@5
0@1000000003 transfers 101 0 0 MAX 4 100 = 0@1000000004
0@0 GET /statement/1 = csv 5,100,debit,pending,100,100,0,0,0
   1000000004,101,debit,post,100,0,100,0,0
posted too late, and then one more
1@0 transfers 100 1 2 100 2 0 1 = 0@5
1@1000000004 transfers 101 0 0 MAX 4 100 = 34@1000000005
1@0 transfers 102 1 2 10 = 0@1000000006
1@0 GET /statement/1 = csv 5,100,debit,pending,100,100,0,0,0
   1000000006,102,debit,single,10,0,10,0,0
a chain falls whole
2@0 transfers 100 1 2 10 1; 101 3 2 10 1; 102 1 4 10 = 2@5 55@6 2@7
2@0 GET /statement/1 = csv
a chain left open
3@0 transfers 100 1 2 10 1; 101 1 2 10 1 = 2@5 1@6
balancing, and its retries
4@0 transfers 100 1 3 50; 101 3 2 20; 102 3 2 MAX 16; 102 3 2 29 16; 102 3 2 30 16
   = 0@5 0@6 0@7 12@8 18@9
4@0 GET /statement/3 = csv 5,100,credit,single,50,0,0,0,50
   6,101,debit,single,20,0,20,0,50 7,102,debit,single,30,0,50,0,50
a sum too large
5@0 transfers 100 1 2 MAX; 101 1 2 1 = 0@5 50@6
pending and post in one chain
6@0 transfers 100 1 2 70 3; 101 0 0 MAX 4 100 = 0@5 0@6
6@0 transfers 100 1 2 70 3; 101 0 0 MAX 4 100 = 18@7 2@8
6@0 GET /statement/2 = csv 5,100,credit,pending,70,0,0,70,0
   6,101,credit,post,70,0,0,0,70
voided
7@0 transfers 100 1 2 100 2; 101 0 0 99 8 100; 101 0 0 0 8 100 = 0@5 31@6 0@7
7@0 GET /statement/1 = csv 5,100,debit,pending,100,100,0,0,0 7,101,debit,void,100,0,0,0,0
the end of the clock
8@4611686018427387904 transfers 100 1 2 10 = clock_exhausted 503 Service Unavailable
8@4611686018427387904 POST /transfers [] = {"clock":"4611686018427387904","results":[]}
pending amounts count against a limit
9@0 transfers 100 1 3 50; 101 3 2 50 2; 102 3 2 1 = 0@5 0@6 55@7
balancing with no room
10@0 transfers 100 3 2 MAX 16 = 0@5
10@0 GET /statement/3 = csv 5,100,debit,single,0,0,0,0,0
another debit account
11@0 transfers 100 1 2 5 2; 101 2 0 5 4 100 = 0@5 26@6
a reserved flag comes first
12@0 transfers 0 1 2 10 64 = 4@5
overflow, pending and both
13@0 transfers 100 1 2 MAX 2; 101 1 2 1 2; 102 1 2 1; 103 4 2 1 2; 104 4 2 1
   = 0@5 48@6 52@7 49@8 53@9
both balancing flags
14@0 transfers 100 2 1 30; 101 2 4 20; 102 1 2 MAX 48; 103 1 2 MAX 32 = 0@5 0@6 0@7 0@8
14@0 GET /statement/1 = csv 5,100,credit,single,30,0,0,0,30
   7,102,debit,single,30,0,30,0,30 8,103,debit,single,20,0,50,0,30
the first of a chain fails
15@0 transfers 100 1 9 1 1; 101 1 9 1 = 45@5 2@6
an event behind a fallen chain
16@0 transfers 100 1 2 10 1; 101 1 9 10; 102 1 2 5 = 2@5 45@6 0@7
an open chain that fails before its end
17@0 transfers 100 1 9 1 1; 101 1 2 1 1; 102 1 2 1 1 = 45@5 2@6 1@7
accounts in a chain
18@0 POST /accounts [{"id":"5","ledger":7,"code":10,"flags":1},{"id":"6","ledger":0,"code":10}]
   = 2@5 19@6
an id twice in one chain
19@0 transfers 100 1 2 1 1; 100 1 2 1 = 2@5 7@6
the same in a longer chain
20@0 transfers 100 1 2 1 1; 100 1 2 1 1; 101 1 2 1 = 2@5 18@6 2@7
a limit on the credit side
21@0 POST /accounts [{"id":"5","ledger":7,"code":10,"flags":4}] = 0@5
21@0 transfers 100 5 1 30; 101 1 5 31; 102 1 5 30 2; 103 1 5 1 = 0@6 56@7 0@8 56@9
a credited sum too large
22@0 transfers 100 1 2 MAX; 101 4 2 1 = 0@5 51@6
failed ids
23@0 transfers 100 9 2 10 = 44@5
23@0 POST /accounts [{"id":"9","ledger":7,"code":10}] = 0@6
23@0 transfers 100 9 2 10 = 60@7
23@0 transfers 101 9 2 10 = 0@8
23@0 transfers 102 0 0 5 4 77; 102 0 0 5 4 77 = 24@9 60@10
23@0 transfers 103 1 2 1 1; 104 3 2 1 = 2@11 55@12
23@0 transfers 104 1 2 1; 103 1 2 1 = 60@13 0@14
23@0 transfers 104 1 2 1 64; 104 1 2 1 6 = 4@15 60@16
posted in part, of two tenants
24@0 transfers 100 1 2 100 2; 101 0 0 40 4 100; 102 0 0 60 4 100 = 0@5 0@6 32@7
25@0 transfers 100 1 2 100 2; 101 0 0 40 4 100; 102 0 0 60 4 100 = 0@5 0@6 32@7
24@0 GET /statement/1 = csv 5,100,debit,pending,100,100,0,0,0 6,101,debit,post,40,0,40,0,0
25@0 GET /statement/1 = csv 5,100,debit,pending,100,100,0,0,0 6,101,debit,post,40,0,40,0,0
a post retried
24@0 transfers 101 0 0 40 4 100; 101 0 0 41 4 100 = 18@8 12@9
"#;
