//! Files that go in and out, as transcripts.

/// Rates and inventories, good and broken, and their repeats. What requests find after them: the rates under number
/// 1, and no new day yet. The owners' files, and the front of one if the writer fails.
pub const FILES: &str = r#"+ 1 from;rate|2010-05;2.00|
file: row 1 code 70
+ 1 from,rate|2010-05|
file: row 2 code 71
+ 1 from,rate|2010-05,20.01|
file: row 2 code 72
+ 1 from,rate|2010-05,2.00|2010-11,3.50%|
{"new":2,"same":0}
+ 1 from,rate|2010-05,2.00|2010-11,3.50%|
{"new":2,"same":0}
+ 2 serial,denom,issued,owner,coowner|L1EE,50,2010-11,7,|K-0002-EE,75,10/2010,7,8|M3EE,10000,2011-02,7,|
{"new":3,"same":0}
+ 6 serial,denom,issued,owner,coowner|L1EE,50,2010-11,7,|K-0002-EE,75,10/2010,7,8|M3EE,10000,2011-02,7,|
{"new":0,"same":3}
+ 2 serial,denom,issued,owner,coowner|L1EE,50,2010-11,7,|K-0002-EE,75,10/2010,7,8|M3EE,10000,2011-02,7,|
{"new":3,"same":0}
+ 2 from,rate|2010-05,2.00|2010-11,3.50%|
{"code":10,"refused":"NumberReused"}
+ 7 serial,denom,issued,owner,coowner|L1EE,50,2010-11,7,|K-0002-EE,100,10/2010,7,8|Q9EE,50,2010-11,7,|
{"code":31,"refused":"SerialConflict","serial":"K2EE"}
+ 8 serial,denom,issued,owner,coowner|
{"code":11,"refused":"Empty"}
+ 9 
{"code":11,"refused":"Empty"}
+ 10 serial,denom,issued,owner,coowner|L1EE,50,2010-11,7,|K-0002-EE,75,10/2010,7,8|M3EE,10000,2011-02
file: row 4 code 71
+ 10 serial,denom,issued,owner,coowner|L1EE,50,2010-11,7,|K-0002-EE,75,10/2010,7,8|M3EE,10000,2011-02,7,|
{"new":0,"same":3}
+ 10 serial,denom,issued,owner,coowner|L1EE,50,2010-11,7,|K-0002-EE,75,10/2010,7,8|M3EE,10000,2011-02
file: row 4 code 71
> POST /rates {"number":1,"rates":[{"from":"2010-05","rate":"2.00"},{"from":"2010-11","rate":"3.50"}]}
200 {"new":2,"same":0}
> GET /inventory/7/2012-02
200 Serial        Series  Denom Issued  Next    Final          Price       Interest   Rate          Value Note
K2EE          EE         75 10/2010 03/2012 10/2040        37.50           0.84  2.00%          38.34 P5
L1EE          EE         50 11/2010 03/2012 11/2040        25.00           0.88  3.50%          25.88 P5
M3EE          EE      10000 02/2011 03/2012 02/2041      5000.00         132.00  3.50%        5132.00 P5
Total                                                    5062.50         133.72               5196.22

- 7 1000
Ok(3) serial,denom,issued,owner,coowner
K2EE,75,2010-10,7,8
L1EE,50,2010-11,7,
M3EE,10000,2011-02,7,

- 8 1000
Ok(0) serial,denom,issued,owner,coowner

- 7 40
Err(WriteFailed) serial,denom,issued,owner,coowner
K2EE,7
"#;

/// 500 rows are taken and 501 are too many, also with a broken row after them.
pub const LONG_FILES: &str = r#"+ 1 from,rate|2010-05,2.00|2010-11,3.50%|
{"new":2,"same":0}
+ 2 serial,denom,issued,owner,coowner|(*501 A#EE,50,2010-11,7,|*)
{"code":12,"refused":"TooMany"}
+ 3 serial,denom,issued,owner,coowner|(*501 A#EE,50,2010-11,7,|*)broken
{"code":12,"refused":"TooMany"}
+ 4 serial,denom,issued,owner,coowner|(*500 A#EE,50,2010-11,7,|*)broken
file: row 502 code 71
+ 4 serial,denom,issued,owner,coowner|(*500 A#EE,50,2010-11,7,|*)
{"new":500,"same":0}
"#;
