//! Each refusal, and of each two that may hold together the one that comes first.

/// Refused imports, and those that the next ones need.
pub const IMPORTS: &str = r#"> POST /rates {"number":1,"rates":[]}
409 {"code":11,"refused":"Empty"}
> POST /rates {"number":20,"rates":[*501 {"from":"2010-06","rate":"2.00"}*]}
409 {"code":12,"refused":"TooMany"}
> POST /rates {"number":2,"rates":[{"from":"2010-06","rate":"2.00"},{"from":"2010-11","rate":"2.00"},{"from":"2010-11","rate":"3.00"}]}
409 {"code":20,"month":"2010-06","refused":"NotAnnouncementMonth"}
> POST /rates {"number":3,"rates":[{"from":"2010-11","rate":"2.00"},{"from":"2010-11","rate":"3.00"}]}
409 {"code":21,"month":"2010-11","refused":"RateConflict"}
> POST /rates {"number":4,"rates":[{"from":"2010-05","rate":"2.00"},{"from":"2010-05","rate":"2.00"}]}
200 {"new":1,"same":1}
> POST /rates {"number":5,"rates":[{"from":"2010-11","rate":"3.50"},{"from":"2010-05","rate":"3.00"}]}
409 {"code":21,"month":"2010-05","refused":"RateConflict"}
> POST /rates {"number":6,"rates":[{"from":"2010-11","rate":"3.50"}]}
200 {"new":1,"same":0}
> POST /rates {"number":7,"rates":[{"from":"2010-11","rate":"3.50"},{"from":"2011-11","rate":"0.50"}]}
200 {"new":1,"same":1}
> POST /rates {"number":6,"rates":[{"from":"2010-06","rate":"3.50"}]}
409 {"code":10,"refused":"NumberReused"}
> POST /rates {"number":2,"rates":[{"from":"2010-06","rate":"2.00"},{"from":"2010-11","rate":"2.00"},{"from":"2010-11","rate":"3.00"}]}
409 {"code":20,"month":"2010-06","refused":"NotAnnouncementMonth"}
> POST /bonds {"number":10,"bonds":[]}
409 {"code":11,"refused":"Empty"}
> POST /bonds {"number":11,"bonds":[*501 {"serial":"A1EE","denom":50,"issued":"2009-01","owner":7,"coowner":7}*]}
409 {"code":12,"refused":"TooMany"}
> POST /bonds {"number":12,"bonds":[{"serial":"A1EE","denom":50,"issued":"2009-01","owner":7,"coowner":7},{"serial":"A01EE","denom":50,"issued":"2009-01","owner":7,"coowner":7}]}
409 {"code":13,"refused":"Repeated","serial":"A1EE"}
> POST /bonds {"number":13,"bonds":[{"serial":"A1EE","denom":50,"issued":"2009-01","owner":7,"coowner":7}]}
409 {"code":14,"refused":"SameCoowner","serial":"A1EE"}
> POST /bonds {"number":14,"bonds":[{"serial":"L1EE","denom":50,"issued":"2010-11","owner":7},{"serial":"K2EE","denom":75,"issued":"2010-10","owner":7,"coowner":8},{"serial":"N4EE","denom":100,"issued":"2010-11","owner":9}]}
200 {"new":3,"same":0}
> POST /bonds {"number":15,"bonds":[{"serial":"L1EE","denom":75,"issued":"2010-11","owner":7},{"serial":"Z9EE","denom":50,"issued":"2009-01","owner":7}]}
409 {"code":30,"refused":"NoRate","serial":"Z9EE"}
> POST /bonds {"number":16,"bonds":[{"serial":"Q9EE","denom":50,"issued":"2010-11","owner":7},{"serial":"L1EE","denom":75,"issued":"2010-11","owner":7}]}
409 {"code":31,"refused":"SerialConflict","serial":"L1EE"}
> POST /bonds {"number":17,"bonds":[{"serial":"Q9EE","denom":50,"issued":"2010-11","owner":7},{"serial":"L1EE","denom":50,"issued":"2010-11","owner":7}]}
200 {"new":1,"same":1}
> POST /bonds {"number":14,"bonds":[]}
409 {"code":10,"refused":"NumberReused"}
"#;

/// Refused days and tickets, and what the next ones need.
pub const DAYS: &str =
    r#"> POST /rates {"number":1,"rates":[{"from":"2010-05","rate":"2.00"},{"from":"2010-11","rate":"3.50"}]}
200 {"new":2,"same":0}
> POST /bonds {"number":2,"bonds":[{"serial":"L1EE","denom":50,"issued":"2010-11","owner":7},{"serial":"K2EE","denom":75,"issued":"2010-10","owner":7,"coowner":8},{"serial":"N4EE","denom":100,"issued":"2010-11","owner":9}]}
200 {"new":3,"same":0}
> POST /day/close {"number":3,"day":"2010-10-01"}
409 {"code":42,"refused":"NoOpenDay"}
> POST /redeem {"number":4,"day":"2010-10-01","payee":7,"serials":[]}
409 {"code":11,"refused":"Empty"}
> POST /redeem {"number":5,"day":"2010-10-01","payee":7,"serials":[*101 "C12EE","B#EE"*]}
409 {"code":12,"refused":"TooMany"}
> POST /redeem {"number":6,"day":"2010-10-01","payee":7,"serials":["C0012EE","C-12-EE"]}
409 {"code":13,"refused":"Repeated","serial":"C12EE"}
> POST /redeem {"number":7,"day":"2010-10-01","payee":7,"serials":["L1EE"]}
409 {"code":42,"refused":"NoOpenDay"}
> POST /redeem {"number":8,"day":"2010-10-01","payee":7,"serials":["Q7EE"]}
409 {"code":42,"refused":"NoOpenDay"}
> POST /day/open {"number":9,"day":"2010-10-01"}
200 {"opened":"2010-10-01"}
> POST /day/open {"number":10,"day":"2010-09-01"}
409 {"code":40,"refused":"DayOpen"}
> POST /redeem {"number":11,"day":"2010-10-02","payee":7,"serials":["Q7EE"]}
409 {"code":43,"refused":"DayIsOther"}
> POST /day/close {"number":12,"day":"2010-10-02"}
409 {"code":43,"refused":"DayIsOther"}
> POST /redeem {"number":13,"day":"2010-10-01","payee":7,"serials":["Q7EE","N4EE"]}
409 {"code":50,"refused":"UnknownSerial","serial":"Q7EE"}
> POST /redeem {"number":14,"day":"2010-10-01","payee":7,"serials":["N4EE","Q7EE"]}
409 {"code":51,"refused":"NotPayee","serial":"N4EE"}
> POST /redeem {"number":15,"day":"2010-10-01","payee":9,"serials":["L1EE"]}
409 {"code":51,"refused":"NotPayee","serial":"L1EE"}
> POST /redeem {"number":16,"day":"2010-10-01","payee":7,"serials":["L1EE","K2EE"]}
409 {"code":53,"refused":"NotIssued","serial":"L1EE"}
> POST /redeem {"number":17,"day":"2010-10-01","payee":7,"serials":["K2EE","L1EE"]}
409 {"code":54,"refused":"NotEligible","serial":"K2EE"}
> POST /day/close {"number":18,"day":"2010-10-01"}
200 {"bonds":0,"day":"2010-10-01","tickets":0,"total":"0.00"}
> POST /day/open {"number":19,"day":"2010-10-01"}
409 {"code":41,"refused":"DayNotLater"}
> POST /day/open {"number":20,"day":"2012-02-06"}
200 {"opened":"2012-02-06"}
> POST /day/open {"number":21,"day":"2010-10-01"}
409 {"code":40,"refused":"DayOpen"}
> POST /redeem {"number":22,"day":"2012-02-06","payee":7,"serials":["L1EE","N4EE"]}
409 {"code":51,"refused":"NotPayee","serial":"N4EE"}
> POST /redeem {"number":23,"day":"2012-02-06","payee":8,"serials":["K2EE"]}
200 {"day":"2012-02-06","lines":[{"paid":"38.34","serial":"K2EE"}],"payee":8,"ticket":1,"total":"38.34"}
> POST /redeem {"number":24,"day":"2012-02-06","payee":9,"serials":["K2EE"]}
409 {"code":51,"refused":"NotPayee","serial":"K2EE"}
> POST /redeem {"number":25,"day":"2012-02-06","payee":7,"serials":["L1EE","K2EE"]}
409 {"code":52,"refused":"AlreadyPaid","serial":"K2EE","ticket":1}
> POST /redeem {"number":26,"day":"2012-02-06","payee":7,"serials":["L1EE"]}
200 {"day":"2012-02-06","lines":[{"paid":"25.88","serial":"L1EE"}],"payee":7,"ticket":2,"total":"25.88"}
> POST /redeem {"number":23,"day":"2012-02-06","payee":8,"serials":["Q7EE"]}
409 {"code":10,"refused":"NumberReused"}
> POST /day/close {"number":27,"day":"2012-02-06"}
200 {"bonds":2,"day":"2012-02-06","tickets":2,"total":"64.22"}
"#;

/// 500 rows and 100 serials are taken, and no more.
pub const MOST: &str =
    r#"> POST /rates {"number":1,"rates":[*500 {"from":"2010-11","rate":"3.50"}*]}
200 {"new":1,"same":499}
> POST /rates {"number":2,"rates":[*501 {"from":"2010-11","rate":"3.50"}*]}
409 {"code":12,"refused":"TooMany"}
> POST /bonds {"number":3,"bonds":[*501 {"serial":"A#EE","denom":50,"issued":"2010-11","owner":7}*]}
409 {"code":12,"refused":"TooMany"}
> POST /bonds {"number":4,"bonds":[*500 {"serial":"A#EE","denom":50,"issued":"2010-11","owner":7}*]}
200 {"new":500,"same":0}
> POST /bonds {"number":5,"bonds":[*500 {"serial":"B#EE","denom":50,"issued":"2010-11","owner":7}*]}
200 {"new":500,"same":0}
> POST /day/open {"number":6,"day":"2012-02-06"}
200 {"opened":"2012-02-06"}
> POST /redeem {"number":7,"day":"2012-02-06","payee":7,"serials":[*101 "A#EE"*]}
409 {"code":12,"refused":"TooMany"}
> POST /redeem {"number":8,"day":"2012-02-06","payee":8,"serials":[*100 "A#EE"*]}
409 {"code":51,"refused":"NotPayee","serial":"A1EE"}
"#;

/// A ticket of 100 serials.
pub const LONG: &str =
    r#"> POST /redeem {"number":9,"day":"2012-02-06","payee":7,"serials":[*100 "A#EE"*]}
200 {"day":"2012-02-06","lines":[*100 {"paid":"25.88","serial":"A#EE"}*],"payee":7,"ticket":1,"total":"2588.00"}
> POST /day/close {"number":10,"day":"2012-02-06"}
200 {"bonds":100,"day":"2012-02-06","tickets":1,"total":"2588.00"}
> GET /batch/2012-02-06
200 {"bonds":100,"day":"2012-02-06","tickets":1,"total":"2588.00"}
"#;

/// After a thousand tickets of a day: a full day comes before a serial that isn't registered, and after
/// another day.
pub const FULL: &str =
    r#"> POST /redeem {"number":100001,"day":"2012-02-07","payee":7,"serials":["Q7EE"]}
409 {"code":43,"refused":"DayIsOther"}
> POST /redeem {"number":100002,"day":"2012-02-06","payee":7,"serials":["Q7EE"]}
409 {"code":44,"refused":"DayFull"}
> POST /redeem {"number":100003,"day":"2012-02-06","payee":7,"serials":[*101 "Q#EE"*]}
409 {"code":12,"refused":"TooMany"}
> POST /redeem {"number":100004,"day":"2012-02-06","payee":7,"serials":[*100 "Q#EE"*]}
409 {"code":44,"refused":"DayFull"}
> GET /ticket/1000
200 {"day":"2012-02-06","lines":[{"paid":"25.88","serial":"B500EE"}],"payee":7,"ticket":1000,"total":"25.88"}
> GET /ticket/1001
404 {"code":69,"fault":"NotFound"}
> POST /day/close {"number":100005,"day":"2012-02-06"}
200 {"bonds":1000,"day":"2012-02-06","tickets":1000,"total":"25880.00"}
> POST /day/open {"number":100006,"day":"2012-02-07"}
200 {"opened":"2012-02-07"}
> POST /redeem {"number":100007,"day":"2012-02-07","payee":7,"serials":["B500EE"]}
409 {"code":52,"refused":"AlreadyPaid","serial":"B500EE","ticket":1000}
"#;
