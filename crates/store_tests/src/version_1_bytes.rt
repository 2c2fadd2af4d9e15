//! The bytes of store files, and of the logs beside them, that the program made before the store had its present
//! tables.
//!
//! They were made once, by `rt try -- apply --db day.db` in `crates/ee_cli` of earlier commits, with messages on
//! standard input; it gave the answers that are listed with these requests. `apply` had checkpointed the log on
//! exit, so the logs hold no changes.
//!
//! A text has the length of the file on its first line, and then the bytes in lines, each with the offset of its
//! first byte; bytes on no line are zeros. The offset is followed by hexadecimal numbers and characters in turn,
//! each begun by `~`; or, after `=`, by an offset and a count of bytes that are already there.

/// A file of commit 9479c6d, from before extensions, after the five requests of the day.
pub const SEVEN: &str = r#"53248
0 ~~SQLite format 3~00 10 00 02 02 00 40 20 20 00 00 00 00 00 00 00 0d
43 ~03 00 00 00 04
59 ~01
97 ~2e 76 88 0d 00 00 00 0c 0a 27 00 0f 75 0f 06 0e 18 0d ed 0d 96 0c d9 0c 88 0b a6 0b 7d 0b 54 0a ae 0a 27
2599 ~81 04 0c 07 17 1b 1b 01 81~_tablerepliesreplies~0d~CREATE TABLE replies (number INTEGER NOT NULL PRIMARY KEY, act TEXT NOT NULL, reply TEXT NOT NULL) STRICT~81 23 0b 07 17 1b 1b 01 82 1d~tablebatchesbatches~0c~CREATE TABLE batches (day
2789 = 2657 31
2820 ~~tickets INTEGER NOT NULL, bonds INTEGER NOT NULL, total INTEGER NOT NULL) STRICT'~0a 06 17 3b 15 01 00~indexsqlite_autoindex_paid_2paid~0b 27 09
2943 = 2902 33
2976 ~31 70 61 69 64 0a 81 5f 08 07 17 15 15 01 83~!tablepaidpaid~09~CREATE TABLE paid (ticket INTEGER NOT NULL, place INTEGER NOT NULL, letter INTEGER NOT NULL, number INTEGER NOT NULL, cents INTEGER NOT NULL, PRIMARY KEY (ticket, place), UNIQUE (letter, number)) STRICTO~07 06 17 23 1b 01~oindextickets_daytickets~08~CREATE INDEX tickets_day ON tickets (day, ticket)~81 3a 06 07 17 1b 1b 01 82~Ktableticketstickets~07~CREATE TABLE tickets
3339 = 3023 25
3364 ~20~PRIMARY KEY, day INTEGER NOT NULL, payee
3405 = 2827 73
3478 ~55 05 06 17 23 17 01 7f~indexbonds_ownerbonds~06~CREATE INDEX bonds_owner ON bonds (owner, letter, number))~04 06 17 3d 17
3571 = 2906 24
3595 ~~bonds_1bonds~05 81 6b 03 07 17 17 17 01 83~5tablebondsbonds~04~CREATE TABLE bonds (
3654 = 3074 50
3704 ~~denom INTEGER NOT NULL, issued INTEGER NOT NULL, owner INTEGER NOT NULL, coowner INTEGER, ticket INTEGER, PRIMARY KEY
3821 = 3183 25
3846 ~6d 02 07 17 17 17 01 81~9tableratesrates~03~CREATE TABLE rates (period
3897 = 2657 31
3928 ~72 61 74 65
3932 = 2875 25
3957 ~81 08 01 07 17 15 15 01 81~stabledeskdesk~02~CREATE TABLE desk (i
4001 = 3896 32
4033 ~~version INTEGER NOT NULL, day INTEGER, last_day INTEGER) STRICT~0d 00 00 00 01 0f f7 00 0f f7
8183 ~07 01 05 00 09 00 02 3c 10 0d 00 00 00 02 0f f2 00 0f f9 0f f2 74 20 33 00 10 00 02 02 00 40 20 20 00 00 00 00 00 00 00 01
8235 ~02 00 00 00 04
8251 ~01
8289 ~2e 76 88 0d 00 00 00 01 0f 75 00 0f 75
12149 = 3957 125
12274 ~05 42 03 00 02 01 5e 05 3c 03 00 02 00 c8 0d 00 00 00 03 0f d2 00 0f f2 0f e2 0f d2 33 00 10 00 02 02 00 40 20 20 00 00 00 00 00 00 00 01
12331 ~02 00 00 00 04
12347 ~01
12385 ~2e 76 88 0d 00 00 00 02 0f 06 00 0f 75 0f 06
16134 = 3846 204
16338 ~0e 03 08 01 01 02 01 01 00 09 0d 03 27 10 45 07 0e 02 08 01 01 01 01 01 01 09 0b 02 4b 41 07 08 0c 01 08 01 09 01 01 01 00 09 0c 32 42 07 0a 00 00 00 03 0f ea 00 0f f2 0f fa 0f ea 33 00 10 00 02 02 00 40 20 20 00 00 00 00 00 00 00 01
16427 ~02 00 00 00 04
16443 ~01
16481 ~2e 76 88 0d 00 00 00 03 0e 18 00 0f 75 0f 06 0e 18
19992 = 3608 466
20458 ~07 04 01 01 01 0d 03 03 07 04 01 01 01 0b 02 02 05 04 01 09 09 0c 0a 00 00 00 03 0f e4 00 0f ee 0f f8 0f e4 33 00 10 00 02 02 00 40 20 20 00 00 00 00 00 00 00 01
20523 ~02 00 00 00 04
20539 ~01
20577 ~2e 76 88 0d 00 00 00 04 0d ed 00 0f 75 0f 06 0e 18 0d ed
24045 = 3565 503
24548 ~09 05 01 01 01 01 07 0d 03 03 09 05 01 01 01 01 07 0b 02 02 07 05 01 01 09 09 07 0c 0d 00 00 00 01 0f f1 00 0f f1 6d 61 74 20 33 00 10 00 02 02 00 40 20 20 00 00 00 00 00 00 00 01
24619 ~02 00 00 00 04
24635 ~01
24673 ~2e 76 88 0d 00 00 00 05 0d 96 00 0f 75 0f 06 0e 18 0d ed 0d 96
28054 = 3478 603
28657 ~0d 01 06 00 02 01 01 03 3c 10 07 03 07 ed c6 0a 00 00 00 01 0f f9 00 0f f9 6d 61 74 20 33 00 10 00 02 02 00 40 20 20 00 00 00 00 00 00 00 01
28715 ~02 00 00 00 04
28731 ~01
28769 ~2e 76 88 0d 00 00 00 06 0c d9 00 0f 75 0f 06 0e 18 0d ed 0d 96 0c d9
31961 = 3289 800
32761 ~06 04 02 09 09 3c 10 0d 00 00 00 03 0f da 00 0f f5 0f e8 0f da 33 00 10 00 02 02 00 40 20 20 00 00 00 00 00 00 00 01
32811 ~02 00 00 00 04
32827 ~01
32865 ~2e 76 88 0d 00 00 00 07 0c 88 00 0f 75 0f 06 0e 18 0d ed 0d 96 0c d9 0c 88
35976 = 3208 850
36826 ~0c 03 06 09 01 01 01 03 03 0d 03 07 d4 b0 0b 02 06 09 01 01 01 02 02 0b 02 0e fa 09 01 06 09 09 01 09 02 0c 0a 1c 0a 00 00 00 03 0f ed 00 0f fb 0f f4 0f ed 33 00 10 00 02 02 00 40 20 20 00 00 00 00 00 00 00 01
36907 ~02 00 00 00 04
36923 ~01
36961 ~2e 76 88 0d 00 00 00 08 0b a6 00 0f 75 0f 06 0e 18 0d ed 0d 96 0c d9 0c 88 0b a6
39846 = 2982 1095
40941 ~06 04 09 01 01 03 03 06 04 09 01 01 02 02 04 04 09 09 09
40960 = 16384 32
41003 ~02 00 00 00 04
41019 ~01
41057 ~2e 76 88 0d 00 00 00 09 0b 7d 00 0f 75 0f 06 0e 18 0d ed 0d 96 0c d9 0c 88 0b a6 0b 7d
43901 = 2941 1133
45034 ~07 04 01 01 01 0d 03 03 07 04 01 01 01 0b 02 02 05 04 01 09 09 0c 0d 00 00 00 01 0f f4 00 0f f4 6d 61 74 20 33 00 10 00 02 02 00 40 20 20 00 00 00 00 00 00 00 01
45099 ~02 00 00 00 04
45115 ~01
45153 ~2e 76 88 0d 00 00 00 0a 0b 54 00 0f 75 0f 06 0e 18 0d ed 0d 96 0c d9 0c 88 0b a6 0b 7d 0b 54
47956 = 2900 1184
49140 ~09 f8 10 05 00 09 01 03 03 07 ed c6 0d 00 00 00 05 0c f6 00 0f 8a 0e 9a 0e 5c 0d 5b 0c f6 02 02 00 40 20 20 00 00 00 00 00 00 00 01
49195 ~02 00 00 00 04
49211 ~01
49249 ~2e 76 88 0d 00 00 00 0b 0a ae 00 0f 75 0f 06 0e 18 0d ed 0d 96 0c d9 0c 88 0b a6 0b 7d 0b 54 0a ae
51886 = 2734 584
52470 ~63 05 05 00 51 81 05~{"act":"close","day":"2012-02-06"}{"bonds":3,"day":"2012-02-06","tickets":1,"total":"5196.22"}~81 7e 04 06 00 81 29 82~a{"act":"redeem","day":"2012-02-06","payee":7,"serials":["L1EE","K2EE","M3EE"]}{"day":"2012-02-06","lines":[{"paid":"25.88","serial":"L1EE"},{"paid":"38.34","serial":"K2EE"},{"paid":"5132.00","serial":"M3EE"}],"payee":7,"ticket":1,"total":"5196.22"}<~03 04 00~O;{"act":"open","day":"2012-02-06"}{"opened":"2012-02-06"}~81 6d 02 05 00 83~91{"act":"bonds","bonds":[{"denom":50,"issued":"2010-11","owner":7,"serial":"L1EE"},{"coowner":8,"denom":75,"issued":"2010-10","owner":7,"serial":"K2EE"},{"denom":10000,"issued":"2011-02","owner":7,"serial":"M3EE"}]}{"new":3,"same":0}t~01 05 00 81~G1{"act":"rates","rates":[{"from":"2010-05","rate":"2.00%"},{"from":"2010-11","rate":"3.50%"}]}{"new":2,"same":0}
"#;

/// Its log.
pub const SEVEN_LOG: &str =
    "41\n0 ~37 7f 06 82 00 2d e2 18 00 00 10 00 00 00 00 00 01 00 00 01 dd d7 3d 5f d5 e7 03 14 ed 0c b2 96 00 00 00 00 00 00 00 00 00";

/// A file of commit 734e25e, from before desks, after the five requests and a sixth, which enters an extension.
pub const EXTENDED: &str = r#"57344
0 ~~SQLite format 3~00 10 00 02 02 00 40 20 20 00 00 00 00 00 00 00 0e
43 ~03 00 00 00 04
59 ~01
97 ~2e 76 88 0d 00 00 00 0d 09 a9 00 0f 75 0f 06 0e 18 0d ed 0d 96 0c d9 0c 88 0b a6 0b 7d 0b 54 0a ae 0a 27 09 a9
2473 ~7c 0d 07 17 21 21 01 81~Ctableextensionsextensions~0e~CREATE TABLE extensions (period INTEGER NOT NULL PRIMARY KEY, rate INTEGER NOT NULL) STRICT~81 04 0c 07 17 1b 1b 01 81~_tablerepliesreplies~0d~CREATE TABLE replies (number
2657 = 2539 31
2688 ~~act TEXT NOT NULL, reply TEXT NOT NULL) STRICT~81 23 0b 07 17 1b 1b 01 82 1d~tablebatchesbatches~0c~CREATE TABLE batches (day
2789 = 2539 31
2820 ~~tickets INTEGER NOT NULL, bonds INTEGER NOT NULL, total
2875 = 2574 25
2900 ~27 0a 06 17 3b 15 01 00~indexsqlite_autoindex_paid_2paid~0b 27 09
2943 = 2902 33
2976 ~31 70 61 69 64 0a 81 5f 08 07 17 15 15 01 83~!tablepaidpaid~09~CREATE TABLE paid (ticket INTEGER NOT NULL, place INTEGER NOT NULL, letter INTEGER NOT NULL, number INTEGER NOT NULL, cents INTEGER NOT NULL, PRIMARY KEY (ticket, place), UNIQUE (letter, number)) STRICTO~07 06 17 23 1b 01~oindextickets_daytickets~08~CREATE INDEX tickets_day ON tickets (day, ticket)~81 3a 06 07 17 1b 1b 01 82~Ktableticketstickets~07~CREATE TABLE tickets
3339 = 3023 25
3364 ~20~PRIMARY KEY, day INTEGER NOT NULL, payee
3405 = 2827 73
3478 ~55 05 06 17 23 17 01 7f~indexbonds_ownerbonds~06~CREATE INDEX bonds_owner ON bonds (owner, letter, number))~04 06 17 3d 17
3571 = 2906 24
3595 ~~bonds_1bonds~05 81 6b 03 07 17 17 17 01 83~5tablebondsbonds~04~CREATE TABLE bonds (
3654 = 3074 50
3704 ~~denom INTEGER NOT NULL, issued INTEGER NOT NULL, owner INTEGER NOT NULL, coowner INTEGER, ticket INTEGER, PRIMARY KEY
3821 = 3183 25
3846 ~6d 02 07 17 17 17 01 81~9tableratesrates~03~CREATE TABLE rate
3888 = 2530 70
3958 ~08 01 07 17 15 15 01 81~stabledeskdesk~02~CREATE TABLE desk (i
4001 = 2538 32
4033 ~~version INTEGER NOT NULL, day INTEGER, last_day INTEGER) STRICT~0d 00 00 00 01 0f f7 00 0f f7
8183 ~07 01 05 00 09 00 02 3c 10 0d 00 00 00 03 0f eb 00 0f f9 0f f2 0f eb 33 00 10 00 02 02 00 40 20 20 00 00 00 00 00 00 00 01
8235 ~02 00 00 00 04
8251 ~01
8289 ~2e 76 88 0d 00 00 00 01 0f 75 00 0f 75
12149 = 3957 118
12267 ~05 48 03 00 02 01 54 05 42 03 00 02 01 5e 05 3c 03 00 02 00 c8 0d 00 00 00 03 0f d2 00 0f f2 0f e2 0f d2 33 00 10 00 02 02 00 40 20 20 00 00 00 00 00 00 00 01
12331 ~02 00 00 00 04
12347 ~01
12385 ~2e 76 88 0d 00 00 00 02 0f 06 00 0f 75 0f 06
16134 = 3846 204
16338 ~0e 03 08 01 01 02 01 01 00 09 0d 03 27 10 45 07 0e 02 08 01 01 01 01 01 01 09 0b 02 4b 41 07 08 0c 01 08 01 09 01 01 01 00 09 0c 32 42 07 0a 00 00 00 03 0f ea 00 0f f2 0f fa 0f ea 33 00 10 00 02 02 00 40 20 20 00 00 00 00 00 00 00 01
16427 ~02 00 00 00 04
16443 ~01
16481 ~2e 76 88 0d 00 00 00 03 0e 18 00 0f 75 0f 06 0e 18
19992 = 3608 466
20458 ~07 04 01 01 01 0d 03 03 07 04 01 01 01 0b 02 02 05 04 01 09 09 0c 0a 00 00 00 03 0f e4 00 0f ee 0f f8 0f e4 33 00 10 00 02 02 00 40 20 20 00 00 00 00 00 00 00 01
20523 ~02 00 00 00 04
20539 ~01
20577 ~2e 76 88 0d 00 00 00 04 0d ed 00 0f 75 0f 06 0e 18 0d ed
24045 = 3565 503
24548 ~09 05 01 01 01 01 07 0d 03 03 09 05 01 01 01 01 07 0b 02 02 07 05 01 01 09 09 07 0c 0d 00 00 00 01 0f f1 00 0f f1 6d 61 74 20 33 00 10 00 02 02 00 40 20 20 00 00 00 00 00 00 00 01
24619 ~02 00 00 00 04
24635 ~01
24673 ~2e 76 88 0d 00 00 00 05 0d 96 00 0f 75 0f 06 0e 18 0d ed 0d 96
28054 = 3478 603
28657 ~0d 01 06 00 02 01 01 03 3c 10 07 03 07 ed c6 0a 00 00 00 01 0f f9 00 0f f9 6d 61 74 20 33 00 10 00 02 02 00 40 20 20 00 00 00 00 00 00 00 01
28715 ~02 00 00 00 04
28731 ~01
28769 ~2e 76 88 0d 00 00 00 06 0c d9 00 0f 75 0f 06 0e 18 0d ed 0d 96 0c d9
31961 = 3289 800
32761 ~06 04 02 09 09 3c 10 0d 00 00 00 03 0f da 00 0f f5 0f e8 0f da 33 00 10 00 02 02 00 40 20 20 00 00 00 00 00 00 00 01
32811 ~02 00 00 00 04
32827 ~01
32865 ~2e 76 88 0d 00 00 00 07 0c 88 00 0f 75 0f 06 0e 18 0d ed 0d 96 0c d9 0c 88
35976 = 3208 850
36826 ~0c 03 06 09 01 01 01 03 03 0d 03 07 d4 b0 0b 02 06 09 01 01 01 02 02 0b 02 0e fa 09 01 06 09 09 01 09 02 0c 0a 1c 0a 00 00 00 03 0f ed 00 0f fb 0f f4 0f ed 33 00 10 00 02 02 00 40 20 20 00 00 00 00 00 00 00 01
36907 ~02 00 00 00 04
36923 ~01
36961 ~2e 76 88 0d 00 00 00 08 0b a6 00 0f 75 0f 06 0e 18 0d ed 0d 96 0c d9 0c 88 0b a6
39846 = 2982 1095
40941 ~06 04 09 01 01 03 03 06 04 09 01 01 02 02 04 04 09 09 09
40960 = 16384 32
41003 ~02 00 00 00 04
41019 ~01
41057 ~2e 76 88 0d 00 00 00 09 0b 7d 00 0f 75 0f 06 0e 18 0d ed 0d 96 0c d9 0c 88 0b a6 0b 7d
43901 = 2941 1133
45034 ~07 04 01 01 01 0d 03 03 07 04 01 01 01 0b 02 02 05 04 01 09 09 0c 0d 00 00 00 01 0f f4 00 0f f4 6d 61 74 20 33 00 10 00 02 02 00 40 20 20 00 00 00 00 00 00 00 01
45099 ~02 00 00 00 04
45115 ~01
45153 ~2e 76 88 0d 00 00 00 0a 0b 54 00 0f 75 0f 06 0e 18 0d ed 0d 96 0c d9 0c 88 0b a6 0b 7d 0b 54
47956 = 2900 1184
49140 ~09 f8 10 05 00 09 01 03 03 07 ed c6 0d 00 00 00 06 0c 8e 00 0f 8a 0e 9a 0e 5c 0d 5b 0c f6 0c 8e 00 40 20 20 00 00 00 00 00 00 00 01
49195 ~02 00 00 00 04
49211 ~01
49249 ~2e 76 88 0d 00 00 00 0b 0a ae 00 0f 75 0f 06 0e 18 0d ed 0d 96 0c d9 0c 88 0b a6 0b 7d 0b 54 0a ae
51886 = 2734 480
52366 ~66 06 05 00 81~+1{"act":"rates","rates":[{"extension":"4.00%","from":"2011-05","rate":"3.40%"}]}{"new":1,"same":0}c~05 05 00 51 81 05~{"act":"close","day":"2012-02-06"}{"bonds":3,"day":"2012-02-06","tickets":1,"total":"5196.22"}~81 7e 04 06 00 81 29 82~a{"act":"redeem","day":"2012-02-06","payee":7,"serials":["L1EE","K2EE","M3EE"]}{"day":"2012-02-06","lines":[{"paid":"25.88","serial":"L1EE"},{"paid":"38.34","serial":"K2EE"},{"paid":"5132.00","serial":"M3EE"}],"payee":7,"ticket":1,"total":"5196.22"}<~03 04 00~O;{"act":"open","day":"2012-02-06"}{"opened":"2012-02-06"}~81 6d 02 05 00 83~91{"act":"bonds","bonds":[{"denom":50,"issued":"2010-11","owner":7,"serial":"L1EE"},{"coowner":8,"denom":75,"issued":"2010-10","owner":7,"serial":"K2EE"},{"denom":10000,"issued":"2011-02","owner":7,"serial":"M3EE"}]}{"new":3,"same":0}t~01 05 00 81 47
53136 = 52372 27
53163 ~~from":"2010-05","rate":"2.00%"},{"from":"2010-11","rate":"3.50%"}]}{"new":2,"same":0}~0d
53249 = 28673 31
53291 ~02 00 00 00 04
53307 ~01
53345 ~2e 76 88 0d 00 00 00 0c 0a 27
53355 = 107 25
55847 = 2599 1490
57337 ~05 48 03 00 02 01 90
"#;

/// Its log.
pub const EXTENDED_LOG: &str =
    "41\n0 ~37 7f 06 82 00 2d e2 18 00 00 10 00 00 00 00 00 01 00 00 01 ba a8 64 30 d5 e7 03 14 be 33 83 73 00 00 00 00 00 00 00 00 00";
