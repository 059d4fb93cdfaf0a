//! Scripts that are played twice, by a book with hands outside of it and by a tournament. A line is answered by what
//! stands behind ` : `, and else `ok`. The rows are the sorted deck, and the sorted deck in which the cards at the
//! places 1 and 50 are exchanged, and those at the places 3 and 51.

use super::plans::{PLAN, THREE, THREE_LEVELS, TWO_TWICE};

/// A plan, what comes after it in parts, whether the tournament is over then, and the report at the end. A part that
/// begins with a `begin` is one hand, to its `settle` or to the `stop` that voids it; another is lines that the book
/// takes by itself.
#[derive(Clone, Copy)]
pub struct BookScript {
    pub name: &'static str,
    pub plan: &'static str,
    pub parts: &'static [&'static str],
    pub over: bool,
    pub report: &'static str,
}

/// A plan of three tables.
const THREE_TABLES: &str = "game holdem
tables 3
seats 6
stack 1000
buyin 100
late 1
blinds 100 200 100
shares 700 300
go
";

/// A plan of one table with an ante, a fixed limit and three prizes.
const ANTE_AND_LIMIT: &str = "game holdem
tables 1
seats 6
stack 1000
buyin 100
late 1
blinds 100 200 100 200
shares 500 300 200
limit 2
go
";

/// A plan of one table with three prizes.
const THREE_PRIZES: &str = "game holdem
tables 1
seats 6
stack 1000
buyin 100
late 1
blinds 100 200 100
shares 500 300 200
go
";

pub const BOOK_SCRIPTS: &[BookScript] = &[
    BookScript {
        name: "entries, hands of folds and a hand that is void at the stop",
        plan: PLAN,
        parts: &[
            "enter ann 1 1
enter bob 1 4
enter ann 1 2 : no 6 NameKnown
enter cat 1 4 : no 10 SeatTaken
enter cat 1 7 : no 9 NoSeat
enter cat 2 1 : no 8 NoTable
enter cat 1 6
",
            "\
begin 1 2c2d2h2s3c3d3h3s4c4d4h4s5c5d5h5s6c6d6h6s7c7d7h7s8c8d8h8s9c9d9h9sTcTdThTsJcJdJhJsQcQdQhQsKcKdKhKsAcAdAhAs
act 1 ann fold
act 1 bob fold
settle 1
",
            "\
begin 1 2c2d2h2s3c3d3h3s4c4d4h4s5c5d5h5s6c6d6h6s7c7d7h7s8c8d8h8s9c9d9h9sTcTdThTsJcJdJhJsQcQdQhQsKcKdKhKsAcAdAhAs
act 1 bob fold
act 1 cat fold
settle 1
",
            "\
begin 1 2c2d2h2s3c3d3h3s4c4d4h4s5c5d5h5s6c6d6h6s7c7d7h7s8c8d8h8s9c9d9h9sTcTdThTsJcJdJhJsQcQdQhQsKcKdKhKsAcAdAhAs
act 1 cat call
stop
",
        ],
        over: false,
        report: "* report
* level 1
* sold 3000
* removed 0
* added 0
* rest 3000
* play 0
* seat 1 1 ann 1100
* seat 1 4 bob 900
* seat 1 6 cat 1000
* end
",
    },
    BookScript {
        name: "hands that break players, to the end",
        plan: PLAN,
        parts: &[
            THREE,
            // The board is 3s 4c 4d 4s 5d; bob has 2c 2s, cat 2d 3c and ann 2h 3d. bob is out, and the others share.
            "\
begin 1 2c2d2h2s3c3d3h3s4c4d4h4s5c5d5h5s6c6d6h6s7c7d7h7s8c8d8h8s9c9d9h9sTcTdThTsJcJdJhJsQcQdQhQsKcKdKhKsAcAdAhAs
act 1 ann allin
act 1 bob call
act 1 cat call
settle 1
",
            // The board is 3d 3h 3s 4d 4s; cat has Ah As and ann 2c 2h. cat is the last one in.
            "\
begin 1 2cAh2hAs3c3d3h3s4c4d4h4s5c5d5h5s6c6d6h6s7c7d7h7s8c8d8h8s9c9d9h9sTcTdThTsJcJdJhJsQcQdQhQsKcKdKhKsAcAd2d2s
act 1 cat allin
act 1 ann call
settle 1
",
            "enter dan 1 4 : no 43 Over
",
        ],
        over: true,
        report: "* report
* level 1
* sold 3000
* removed 0
* added 0
* rest 3000
* play 0
* seat 1 6 cat 3000
* out 1 cat 210
* out 2 ann 90
* out 3 bob 0
* end
",
    },
    BookScript {
        name: "entries at the tables with the fewest, a break and a balance",
        plan: THREE_TABLES,
        parts: &[
            "enter ann 1 1
enter bob 1 2 : no 11 NotFewest
enter bob 1 1 : no 10 SeatTaken
enter bob 2 1
enter cat 3 1
enter dan 1 2
enter eve 2 2
balance 1 4 : no 8 NoTable
balance 3 1 : no 33 NotFullest
balance 1 2 : no 34 NotShortest
balance 1 3 : no 35 EvenEnough
break 2 1.3 bob : no 36 NotNextToBreak
break 3 2.3 cat : no 38 DrawWrong
break 3 1.3 cat
break 3 1.3 cat : no 8 NoTable
enter fay 3 4
",
            // Table 1 has three players and table 3 one. cat would be the big blind at table 1.
            "balance 1 3
",
        ],
        over: false,
        report: "* report
* level 1
* sold 6000
* removed 0
* added 0
* rest 6000
* play 0
* seat 1 1 ann 1000
* seat 1 2 dan 1000
* seat 2 1 bob 1000
* seat 2 2 eve 1000
* seat 3 1 cat 1000
* seat 3 4 fay 1000
* end
",
    },
    BookScript {
        name: "a round of hand-for-hand, a level and a race at each table",
        plan: THREE_LEVELS,
        parts: &[
            TWO_TWICE,
            "hands on
",
            "\
begin 1 2c2d2h2s3c3d3h3s4c4d4h4s5c5d5h5s6c6d6h6s7c7d7h7s8c8d8h8s9c9d9h9sTcTdThTsJcJdJhJsQcQdQhQsKcKdKhKsAcAdAhAs
act 1 ann fold
settle 1
",
            "round : no 40 RoundOpen
",
            "\
begin 2 2c2d2h2s3c3d3h3s4c4d4h4s5c5d5h5s6c6d6h6s7c7d7h7s8c8d8h8s9c9d9h9sTcTdThTsJcJdJhJsQcQdQhQsKcKdKhKsAcAdAhAs
act 2 bob fold
settle 2
",
            "round
hands off
level
level : no 17 RaceDue
",
            // Of 900 ann has 2c, and of 1100 cat has 2d: the chip of 200 is cat's. So it is with bob and dan.
            "\
race 1 2c2d2h2s3c3d3h3s4c4d4h4s5c5d5h5s6c6d6h6s7c7d7h7s8c8d8h8s9c9d9h9sTcTdThTsJcJdJhJsQcQdQhQsKcKdKhKsAcAdAhAs
race 1 2c2d2h2s3c3d3h3s4c4d4h4s5c5d5h5s6c6d6h6s7c7d7h7s8c8d8h8s9c9d9h9sTcTdThTsJcJdJhJsQcQdQhQsKcKdKhKsAcAdAhAs : no 42 NoRace
race 2 2c2d2h2s3c3d3h3s4c4d4h4s5c5d5h5s6c6d6h6s7c7d7h7s8c8d8h8s9c9d9h9sTcTdThTsJcJdJhJsQcQdQhQsKcKdKhKsAcAdAhAs
",
            // The blinds are cat's 200 and ann's 400.
            "\
begin 1 2c2d2h2s3c3d3h3s4c4d4h4s5c5d5h5s6c6d6h6s7c7d7h7s8c8d8h8s9c9d9h9sTcTdThTsJcJdJhJsQcQdQhQsKcKdKhKsAcAdAhAs
act 1 cat fold
settle 1
",
        ],
        over: false,
        report: "* report
* level 2
* sold 4000
* removed 400
* added 400
* rest 4000
* play 0
* seat 1 1 ann 1000
* seat 1 2 cat 1000
* seat 2 1 bob 800
* seat 2 2 dan 1200
* end
",
    },
    BookScript {
        name: "a re-entry, to the end",
        plan: THREE_PRIZES,
        parts: &[
            THREE,
            // The board is 3s 4c 4d 4s 5d; bob has 2c As, a straight, and cat Ah 3c, fours full.
            "\
begin 1 2cAh2hAs3c3d3h3s4c4d4h4s5c5d5h5s6c6d6h6s7c7d7h7s8c8d8h8s9c9d9h9sTcTdThTsJcJdJhJsQcQdQhQsKcKdKhKsAcAd2d2s
act 1 ann fold
act 1 bob allin
act 1 cat call
settle 1
",
            "enter bob 1 4 : no 6 NameKnown
reenter dan 1 2 : no 7 NameUnknown
reenter bob 2 1 : no 8 NoTable
reenter bob 1 7 : no 9 NoSeat
reenter bob 1 6 : no 10 SeatTaken
reenter cat 1 2 : no 45 StillIn
reenter bob 1 4
reenter bob 1 4 : no 10 SeatTaken
",
            // Button, small and big blind are bob, cat and ann: cat has Ah 3c on the same board, fours full, and ann
            // 2c As, a straight.
            "\
begin 1 Ah2c2h3cAs3d3h3s4c4d4h4s5c5d5h5s6c6d6h6s7c7d7h7s8c8d8h8s9c9d9h9sTcTdThTsJcJdJhJsQcQdQhQsKcKdKhKsAcAd2d2s
act 1 bob fold
act 1 cat allin
act 1 ann call
settle 1
",
            // The board is 3d 3h 3s 4d 4s; cat, who has the button, has 2c 3c and bob Ah 2h: fours of threes.
            "\
begin 1 Ah2c2h3cAs3d3h3s4c4d4h4s5c5d5h5s6c6d6h6s7c7d7h7s8c8d8h8s9c9d9h9sTcTdThTsJcJdJhJsQcQdQhQsKcKdKhKsAcAd2d2s
act 1 cat allin
act 1 bob call
settle 1
",
            "reenter ann 1 1 : no 43 Over
reenter cat 1 1 : no 43 Over
",
        ],
        over: true,
        report: "* report
* level 1
* sold 4000
* removed 0
* added 0
* rest 4000
* play 0
* seat 1 6 cat 4000
* out 1 cat 200
* out 2 bob 120
* out 3 ann 80
* end
",
    },
    BookScript {
        name: "a hand with an ante by fixed limit, and one that is void at the stop",
        plan: ANTE_AND_LIMIT,
        parts: &[
            THREE,
            // The board is 3s 4c 4d 4s 5d; bob has 2c 2s, cat 2d 3c and ann 2h 3d. cat and ann share 1400, of which bob
            // paid 400 and the ante is 200.
            "\
begin 1 2c2d2h2s3c3d3h3s4c4d4h4s5c5d5h5s6c6d6h6s7c7d7h7s8c8d8h8s9c9d9h9sTcTdThTsJcJdJhJsQcQdQhQsKcKdKhKsAcAdAhAs
act 1 ann raise 400
act 1 bob call
act 1 cat call
act 1 bob check
act 1 cat check
act 1 ann check
act 1 bob check
act 1 cat check
act 1 ann check
act 1 bob check
act 1 cat check
act 1 ann check
settle 1
",
            "\
begin 1 2c2d2h2s3c3d3h3s4c4d4h4s5c5d5h5s6c6d6h6s7c7d7h7s8c8d8h8s9c9d9h9sTcTdThTsJcJdJhJsQcQdQhQsKcKdKhKsAcAdAhAs
act 1 bob raise 400
stop
",
        ],
        over: false,
        report: "* report
* level 1
* sold 3000
* removed 0
* added 0
* rest 3000
* play 0
* seat 1 1 ann 1300
* seat 1 4 bob 600
* seat 1 6 cat 1100
* end
",
    },
];
