//! The lines with which the runs of the tests begin.

/// A plan of one table.
pub const PLAN: &str = "game holdem
tables 1
seats 6
stack 1000
buyin 100
late 1
blinds 100 200 100
shares 700 300
go
";

/// What a plan and nothing else is answered, and how it is reported.
pub const PLANNED: &str = "ok
ok
ok
ok
ok
ok
ok
ok
ok
* report
* level 1
* sold 0
* removed 0
* added 0
* rest 0
* play 0
* end
";

/// A plan of two tables with a greater unit at the second level, and a third level.
pub const THREE_LEVELS: &str = "game holdem
tables 2
seats 6
stack 1000
buyin 100
late 1
blinds 100 200 100
blinds 200 400 200
blinds 200 400 200
shares 700 300
go
";

/// A plan file of three tables of nine.
pub const THREE_OF_NINE: &str = "game = \"holdem\"
tables = 3
seats = 9
stack = 10000
buyin = 200
late = 2
blinds = [[25, 50, 25], [50, 100, 25], [100, 200, 100], [500, 1000, 100], [2000, 4000, 500], [10000, 20000, 500]]
shares = [500, 300, 200]
";

/// Two players enter.
pub const TWO: &str = "enter ann 1 1
enter bob 1 4
";

/// Three players enter.
pub const THREE: &str = "enter ann 1 1
enter bob 1 4
enter cat 1 6
";

/// Two players enter at each of two tables.
pub const TWO_TWICE: &str = "enter ann 1 1
enter bob 2 1
enter cat 1 2
enter dan 2 2
";

/// A hand in which both are all-in before the flop. The board is 3d 3h 3s 4d 4s; ann has Ah As and bob 2c 2h.
pub const ALL_IN: &str =
    "begin 1 2cAh2hAs3c3d3h3s4c4d4h4s5c5d5h5s6c6d6h6s7c7d7h7s8c8d8h8s9c9d9h9sTcTdThTsJcJdJhJsQcQdQhQsKcKdKhKsAcAd2d2s
act 1 ann allin
act 1 bob call
settle 1
";

/// What ann is told of the plan of one table, of two entries and of that hand.
pub const ALL_IN_TOLD: &str = "# game holdem
# tables 1
# seats 6
# stack 1000
# buyin 100
# late 1
# blinds 100 200 100
# shares 700 300
# go
# enter ann 1 1
# enter bob 1 4
# begin 1 1
1: hand 1 1 1 4
1: seat 1 ann 1000
1: seat 4 bob 1000
1: post ann 100
1: post bob 200
1: hole AhAs
1: ann raise 1000
1: bob call 800
1: show bob 2c2h
1: show ann AhAs
1: flop 3d3h3s
1: turn 4d
1: river 4s
1: win ann 2000
# settle 1
# stack 1 1 ann 2000
# stack 1 4 bob 0
";

/// What is told of the simulation of the number 7 over three tables of nine.
pub const SEVENTH: &str = "simulate 7
hands 11
events 208
left 1
* report
* level 1
* sold 270000
* removed 0
* added 0
* rest 270000
* play 0
* seat 1 8 p22 270000
* out 1 p22 2700
* out 2 p5 1620
* out 3 p11 1080
* out 4 p17 0
* out 5 p1 0
* out 5 p14 0
* out 7 p21 0
* out 8 p2 0
* out 9 p23 0
* out 10 p8 0
* out 11 p3 0
* out 11 p27 0
* out 13 p9 0
* out 13 p12 0
* out 13 p16 0
* out 16 p6 0
* out 16 p15 0
* out 16 p18 0
* out 16 p24 0
* out 20 p20 0
* out 20 p26 0
* out 22 p4 0
* out 22 p7 0
* out 22 p10 0
* out 22 p13 0
* out 22 p19 0
* out 22 p25 0
* end
";
