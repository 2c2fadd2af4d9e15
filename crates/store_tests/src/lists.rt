//! Lists of none, of as many as an act may have, of one more, of 16,384 and of as many as a body of 1,048,576
//! bytes holds, of each act; each refused list again, and another list under its number.

pub const LISTS: &str = r#"> POST /rates {"number":1,"rates":[]}
409 {"code":11,"refused":"Empty"}
> POST /rates {"number":2,"rates":[*501 {"from":"2010-11","rate":"3.50"}*]}
409 {"code":12,"refused":"TooMany"}
> POST /rates {"number":3,"rates":[*16384 {"from":"2010-11","rate":"3.50"}*]}
409 {"code":12,"refused":"TooMany"}
> POST /rates {"number":4,"rates":[*31774 {"from":"2010-11","rate":"3.50"}*]}
409 {"code":12,"refused":"TooMany"}
> POST /rates {"number":4,"rates":[*31774 {"from":"2010-11","rate":"3.50"}*]}
409 {"code":12,"refused":"TooMany"}
> POST /rates {"number":4,"rates":[*31773 {"from":"2010-11","rate":"3.50"}*]}
409 {"code":10,"refused":"NumberReused"}
> GET /value/50/2010-11/2012-02
409 {"code":30,"refused":"NoRate"}
> POST /rates {"number":5,"rates":[*500 {"from":"2010-11","rate":"3.50"}*]}
200 {"new":1,"same":499}
> POST /bonds {"number":11,"bonds":[]}
409 {"code":11,"refused":"Empty"}
> POST /bonds {"number":12,"bonds":[*501 {"serial":"A#EE","denom":50,"issued":"2010-11","owner":7}*]}
409 {"code":12,"refused":"TooMany"}
> POST /bonds {"number":13,"bonds":[*16384 {"serial":"A#EE","denom":50,"issued":"2010-11","owner":7}*]}
409 {"code":12,"refused":"TooMany"}
> POST /bonds {"number":14,"bonds":[*17091 {"serial":"A#EE","denom":50,"issued":"2010-11","owner":7}*]}
409 {"code":12,"refused":"TooMany"}
> POST /bonds {"number":14,"bonds":[*17091 {"serial":"A#EE","denom":50,"issued":"2010-11","owner":7}*]}
409 {"code":12,"refused":"TooMany"}
> POST /bonds {"number":14,"bonds":[*17090 {"serial":"A#EE","denom":50,"issued":"2010-11","owner":7}*]}
409 {"code":10,"refused":"NumberReused"}
> POST /bonds {"number":15,"bonds":[*500 {"serial":"A#EE","denom":50,"issued":"2010-11","owner":7}*]}
200 {"new":500,"same":0}
> POST /day/open {"number":20,"day":"2012-02-06"}
200 {"opened":"2012-02-06"}
> POST /redeem {"number":21,"day":"2012-02-06","payee":7,"serials":[]}
409 {"code":11,"refused":"Empty"}
> POST /redeem {"number":22,"day":"2012-02-06","payee":7,"serials":[*101 "A#EE"*]}
409 {"code":12,"refused":"TooMany"}
> POST /redeem {"number":23,"day":"2012-02-06","payee":7,"serials":[*16384 "A#EE"*]}
409 {"code":12,"refused":"TooMany"}
> POST /redeem {"number":24,"day":"2012-02-06","payee":7,"serials":[*96329 "A#EE"*]}
409 {"code":12,"refused":"TooMany"}
> POST /redeem {"number":24,"day":"2012-02-06","payee":7,"serials":[*96329 "A#EE"*]}
409 {"code":12,"refused":"TooMany"}
> POST /redeem {"number":24,"day":"2012-02-06","payee":7,"serials":[*96328 "A#EE"*]}
409 {"code":10,"refused":"NumberReused"}
> POST /redeem {"number":25,"day":"2012-02-06","payee":7,"serials":[*149788 "A1EE"*]}
409 {"code":12,"refused":"TooMany"}
> GET /ticket/1
404 {"code":69,"fault":"NotFound"}
> POST /redeem {"number":26,"day":"2012-02-06","payee":7,"serials":[*100 "A#EE"*]}
200 {"day":"2012-02-06","lines":[*100 {"paid":"25.88","serial":"A#EE"}*],"payee":7,"ticket":1,"total":"2588.00"}
> POST /day/close {"number":27,"day":"2012-02-06"}
200 {"bonds":100,"day":"2012-02-06","tickets":1,"total":"2588.00"}
"#;
