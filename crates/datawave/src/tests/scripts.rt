//! Scripts of request lines, each with the reply lines that it wants under the uids of `MarkUid`.

/// Request lines and their reply lines.
#[derive(Clone, Copy)]
pub struct Script {
    pub requests: &'static str,
    pub replies: &'static str,
}

/// From the definition of a field to the close of a query, and pages that are not there or not the caller's.
pub const PLAIN: Script = Script {
    requests: r#"{"op":"define","field":"A","kind":"NOOP","indexed":true,"reversed":false}
{"op":"ingest","records":[{"type":"lab","date":"20240101","fields":{"A":"x","ID":"0-1"}},{"type":"lab","date":"20240101","fields":{"A":"x","B":["2","1"],"ID":"0-2"}}]}
{"op":"create","caller":"ann","query":"A == 'x'","from":"20240101","to":"20240101","size":1}
{"op":"page","caller":"ann","number":1,"page":1}
{"op":"page","caller":"ann","number":1,"page":2}
{"op":"page","caller":"ann","number":1,"page":3}
{"op":"page","caller":"ann","number":1,"page":4294967295}
{"op":"page","caller":"bob","number":1,"page":1}
{"op":"page","caller":"ann","number":2,"page":1}
{"op":"close","caller":"bob","number":1}
{"op":"close","caller":"ann","number":1}
{"op":"page","caller":"ann","number":1,"page":1}
{"op":"close","caller":"ann","number":1}
{"op":"grant","caller":"ann","auths":["S"]}
{"op":"create","caller":"ann","query":"A == 'x'","from":"20240101","to":"20240101"}
{"op":"audit"}"#,
    replies: r#"{"ok":"define"}
{"bad":[],"new":2,"ok":"ingest","repeat":0}
{"number":1,"ok":"create"}
{"events":[{"fields":{"A":["x"],"ID":["0-1"]},"shard":"20240101_0","type":"lab","uid":"0000000000000000000000000000000000000000000000000000000000000001"}],"more":true,"ok":"page"}
{"events":[{"fields":{"A":["x"],"B":["1","2"],"ID":["0-2"]},"shard":"20240101_0","type":"lab","uid":"0000000000000000000000000000000000000000000000000000000000000002"}],"more":false,"ok":"page"}
{"events":[],"more":false,"ok":"page"}
{"events":[],"more":false,"ok":"page"}
{"error":"notOwned"}
{"error":"notOwned"}
{"error":"notOwned"}
{"ok":"close"}
{"error":"notOwned"}
{"error":"notOwned"}
{"ok":"grant"}
{"number":2,"ok":"create"}
{"error":"malformed","why":"shape"}
"#,
};

/// A record that comes again.
pub const REPEATS: Script = Script {
    requests: r#"{"op":"define","field":"A","kind":"NOOP","indexed":true,"reversed":false}
{"op":"ingest","records":[{"type":"lab","date":"20240101","fields":{"A":"x","B":"y","ID":"0-1"}},{"type":"lab","date":"20240101","fields":{"A":"x","B":"y","ID":"0-1"}}]}
{"op":"ingest","records":[{"date":"20240101","fields":{"ID":"0-1","B":"y","A":"x"},"type":"lab"}]}
{"op":"create","caller":"ann","query":"A == 'x'","from":"20240101","to":"20240101"}
{"op":"page","caller":"ann","number":1,"page":1}"#,
    replies: r#"{"ok":"define"}
{"bad":[],"new":1,"ok":"ingest","repeat":1}
{"bad":[],"new":0,"ok":"ingest","repeat":1}
{"number":1,"ok":"create"}
{"events":[{"fields":{"A":["x"],"B":["y"],"ID":["0-1"]},"shard":"20240101_0","type":"lab","uid":"0000000000000000000000000000000000000000000000000000000000000001"}],"more":false,"ok":"page"}
"#,
};

/// Two records of one uid.
pub const CLASH: Script = Script {
    requests: r#"{"op":"ingest","records":[{"type":"lab","date":"20240101","fields":{"A":"x","ID":"0-1"}},{"type":"lab","date":"20240101","fields":{"A":"y","ID":"0-1"}}]}"#,
    replies: r#"{"bad":[{"at":1,"shard":"20240101_0","type":"lab","uid":"0000000000000000000000000000000000000000000000000000000000000001","why":"clash"}],"new":1,"ok":"ingest","repeat":0}
"#,
};

/// Shards in the order of their bytes, and an event that comes after the query.
pub const ORDER: Script = Script {
    requests: r#"{"op":"define","field":"A","kind":"NOOP","indexed":true,"reversed":false}
{"op":"ingest","records":[{"type":"lab","date":"20240101","fields":{"A":"x","ID":"2-1"}},{"type":"lab","date":"20240101","fields":{"A":"x","ID":"10-1"}}]}
{"op":"create","caller":"ann","query":"A == 'x'","from":"20240101","to":"20240101"}
{"op":"ingest","records":[{"type":"lab","date":"20240101","fields":{"A":"x","ID":"0-3"}}]}
{"op":"page","caller":"ann","number":1,"page":1}"#,
    replies: r#"{"ok":"define"}
{"bad":[],"new":2,"ok":"ingest","repeat":0}
{"number":1,"ok":"create"}
{"bad":[],"new":1,"ok":"ingest","repeat":0}
{"events":[{"fields":{"A":["x"],"ID":["10-1"]},"shard":"20240101_10","type":"lab","uid":"000000000000000a000000000000000000000000000000000000000000000001"},{"fields":{"A":["x"],"ID":["2-1"]},"shard":"20240101_2","type":"lab","uid":"0000000000000002000000000000000000000000000000000000000000000001"}],"more":false,"ok":"page"}
"#,
};

/// Records whose visibility is refused beside one that is taken.
pub const REFUSED_VISIBILITY: Script = Script {
    requests: r#"{"op":"ingest","records":[{"type":"lab","date":"20240101","fields":{"A":"x","ID":"0-1"},"vis":"A&B|C"},{"type":"lab","date":"20240101","fields":{"A":{"value":"x","vis":"A&"},"ID":"0-2"}},{"type":"lab","date":"20240101","fields":{"A":{"value":"x","vis":"(A&B)|C"},"ID":"0-3"}},{"type":"lab","date":"20240101","fields":{"A":"x","ID":"0-4"},"vis":"\"a\u0000\""}]}"#,
    replies: r#"{"bad":[{"at":0,"why":"visibility"},{"at":1,"why":"visibility"},{"at":3,"why":"visibility"}],"new":1,"ok":"ingest","repeat":0}
"#,
};

/// What a caller sees by the names that he was granted when he asked.
pub const GRANTS: Script = Script {
    requests: r#"{"op":"define","field":"F","kind":"NOOP","indexed":true,"reversed":false}
{"op":"define","field":"G","kind":"NOOP","indexed":true,"reversed":false}
{"op":"create","caller":"eve","query":"G == 'x'","from":"20240101","to":"20240101"}
{"op":"grant","caller":"ann","auths":["S"]}
{"op":"ingest","records":[{"type":"lab","date":"20240101","fields":{"F":{"value":"a","vis":"S"},"G":"x","ID":"0-1"}}]}
{"op":"create","caller":"ann","query":"G == 'x'","from":"20240101","to":"20240101"}
{"op":"page","caller":"ann","number":1,"page":1}
{"op":"create","caller":"bob","query":"G == 'x'","from":"20240101","to":"20240101"}
{"op":"page","caller":"bob","number":1,"page":1}
{"op":"create","caller":"bob","query":"F == 'a'","from":"20240101","to":"20240101"}
{"op":"page","caller":"bob","number":2,"page":1}
{"op":"create","caller":"ann","query":"F == 'a'","from":"20240101","to":"20240101","auths":[]}
{"op":"page","caller":"ann","number":2,"page":1}
{"op":"create","caller":"ann","query":"F == 'a'","from":"20240101","to":"20240101","auths":["S","T"]}
{"op":"page","caller":"ann","number":3,"page":1}
{"op":"create","caller":"bob","query":"F == 'a'","from":"20240101","to":"20240101","auths":["S"]}
{"op":"page","caller":"bob","number":3,"page":1}
{"op":"grant","caller":"bob","auths":["S"]}
{"op":"page","caller":"bob","number":2,"page":1}
{"op":"grant","caller":"ann","auths":[]}
{"op":"page","caller":"ann","number":1,"page":1}
{"op":"create","caller":"ann","query":"F == 'a'","from":"20240101","to":"20240101"}
{"op":"page","caller":"ann","number":4,"page":1}
{"op":"page","caller":"eve","number":1,"page":1}"#,
    replies: r#"{"ok":"define"}
{"ok":"define"}
{"number":1,"ok":"create"}
{"ok":"grant"}
{"bad":[],"new":1,"ok":"ingest","repeat":0}
{"number":1,"ok":"create"}
{"events":[{"fields":{"F":["a"],"G":["x"],"ID":["0-1"]},"shard":"20240101_0","type":"lab","uid":"0000000000000000000000000000000000000000000000000000000000000001"}],"more":false,"ok":"page"}
{"number":1,"ok":"create"}
{"events":[{"fields":{"G":["x"],"ID":["0-1"]},"shard":"20240101_0","type":"lab","uid":"0000000000000000000000000000000000000000000000000000000000000001"}],"more":false,"ok":"page"}
{"number":2,"ok":"create"}
{"events":[],"more":false,"ok":"page"}
{"number":2,"ok":"create"}
{"events":[],"more":false,"ok":"page"}
{"number":3,"ok":"create"}
{"events":[{"fields":{"F":["a"],"G":["x"],"ID":["0-1"]},"shard":"20240101_0","type":"lab","uid":"0000000000000000000000000000000000000000000000000000000000000001"}],"more":false,"ok":"page"}
{"number":3,"ok":"create"}
{"events":[],"more":false,"ok":"page"}
{"ok":"grant"}
{"events":[],"more":false,"ok":"page"}
{"ok":"grant"}
{"events":[{"fields":{"F":["a"],"G":["x"],"ID":["0-1"]},"shard":"20240101_0","type":"lab","uid":"0000000000000000000000000000000000000000000000000000000000000001"}],"more":false,"ok":"page"}
{"number":4,"ok":"create"}
{"events":[],"more":false,"ok":"page"}
{"events":[],"more":false,"ok":"page"}
"#,
};

/// An event of which nothing is seen.
pub const HIDDEN_EVENT: Script = Script {
    requests: r#"{"op":"define","field":"F","kind":"NOOP","indexed":true,"reversed":false}
{"op":"ingest","records":[{"type":"lab","date":"20240101","fields":{"F":"a","ID":"0-1"},"vis":"S"},{"type":"lab","date":"20240101","fields":{"F":"a","ID":"0-2"}}]}
{"op":"create","caller":"ann","query":"F == 'a'","from":"20240101","to":"20240101","size":1}
{"op":"page","caller":"ann","number":1,"page":1}"#,
    replies: r#"{"ok":"define"}
{"bad":[],"new":2,"ok":"ingest","repeat":0}
{"number":1,"ok":"create"}
{"events":[{"fields":{"F":["a"],"ID":["0-2"]},"shard":"20240101_0","type":"lab","uid":"0000000000000000000000000000000000000000000000000000000000000002"}],"more":false,"ok":"page"}
"#,
};

/// Pages of a query while events come in.
pub const SNAPSHOT: Script = Script {
    requests: r#"{"op":"define","field":"A","kind":"NOOP","indexed":true,"reversed":false}
{"op":"ingest","records":[{"type":"lab","date":"20240101","fields":{"A":"x","ID":"0-2"}},{"type":"lab","date":"20240101","fields":{"A":"x","ID":"0-4"}}]}
{"op":"create","caller":"ann","query":"A == 'x'","from":"20240101","to":"20240101","size":1}
{"op":"page","caller":"ann","number":1,"page":1}
{"op":"ingest","records":[{"type":"lab","date":"20240101","fields":{"A":"x","ID":"0-1"}}]}
{"op":"page","caller":"ann","number":1,"page":2}
{"op":"page","caller":"ann","number":1,"page":1}
{"op":"create","caller":"ann","query":"A == 'x'","from":"20240101","to":"20240101"}
{"op":"page","caller":"ann","number":2,"page":1}"#,
    replies: r#"{"ok":"define"}
{"bad":[],"new":2,"ok":"ingest","repeat":0}
{"number":1,"ok":"create"}
{"events":[{"fields":{"A":["x"],"ID":["0-2"]},"shard":"20240101_0","type":"lab","uid":"0000000000000000000000000000000000000000000000000000000000000002"}],"more":true,"ok":"page"}
{"bad":[],"new":1,"ok":"ingest","repeat":0}
{"events":[{"fields":{"A":["x"],"ID":["0-4"]},"shard":"20240101_0","type":"lab","uid":"0000000000000000000000000000000000000000000000000000000000000004"}],"more":false,"ok":"page"}
{"events":[{"fields":{"A":["x"],"ID":["0-2"]},"shard":"20240101_0","type":"lab","uid":"0000000000000000000000000000000000000000000000000000000000000002"}],"more":true,"ok":"page"}
{"number":2,"ok":"create"}
{"events":[{"fields":{"A":["x"],"ID":["0-1"]},"shard":"20240101_0","type":"lab","uid":"0000000000000000000000000000000000000000000000000000000000000001"},{"fields":{"A":["x"],"ID":["0-2"]},"shard":"20240101_0","type":"lab","uid":"0000000000000000000000000000000000000000000000000000000000000002"},{"fields":{"A":["x"],"ID":["0-4"]},"shard":"20240101_0","type":"lab","uid":"0000000000000000000000000000000000000000000000000000000000000004"}],"more":false,"ok":"page"}
"#,
};

/// Words compared without case and accents.
pub const TEXT: Script = Script {
    requests: r#"{"op":"define","field":"NAME","kind":"TEXT","indexed":true,"reversed":true}
{"op":"ingest","records":[{"type":"lab","date":"20240101","fields":{"NAME":"école","ID":"0-1"}}]}
{"op":"create","caller":"ann","query":"NAME == 'ÉCOLE'","from":"20240101","to":"20240101"}
{"op":"page","caller":"ann","number":1,"page":1}"#,
    replies: r#"{"ok":"define"}
{"bad":[],"new":1,"ok":"ingest","repeat":0}
{"number":1,"ok":"create"}
{"events":[{"fields":{"ID":["0-1"],"NAME":["école"]},"shard":"20240101_0","type":"lab","uid":"0000000000000000000000000000000000000000000000000000000000000001"}],"more":false,"ok":"page"}
"#,
};

/// Numbers compared by what they are.
pub const NUMBERS: Script = Script {
    requests: r#"{"op":"define","field":"N","kind":"NUMBER","indexed":true,"reversed":false}
{"op":"ingest","records":[{"type":"lab","date":"20240101","fields":{"N":"-2","ID":"0-1"}},{"type":"lab","date":"20240101","fields":{"N":"10","ID":"0-2"}},{"type":"lab","date":"20240101","fields":{"N":["9","abc"],"ID":"0-3"}}]}
{"op":"create","caller":"ann","query":"N == '-2.0'","from":"20240101","to":"20240101"}
{"op":"page","caller":"ann","number":1,"page":1}
{"op":"create","caller":"ann","query":"N == '+9.000'","from":"20240101","to":"20240101"}
{"op":"page","caller":"ann","number":2,"page":1}
{"op":"create","caller":"ann","query":"N == 'abc'","from":"20240101","to":"20240101"}"#,
    replies: r#"{"ok":"define"}
{"bad":[],"new":3,"ok":"ingest","repeat":0}
{"number":1,"ok":"create"}
{"events":[{"fields":{"ID":["0-1"],"N":["-2"]},"shard":"20240101_0","type":"lab","uid":"0000000000000000000000000000000000000000000000000000000000000001"}],"more":false,"ok":"page"}
{"number":2,"ok":"create"}
{"events":[{"fields":{"ID":["0-3"],"N":["9","abc"]},"shard":"20240101_0","type":"lab","uid":"0000000000000000000000000000000000000000000000000000000000000003"}],"more":false,"ok":"page"}
{"error":"malformed","why":"literal"}
"#,
};

/// Literals by the kind of their field, and fields that may not change.
pub const DICTIONARY: Script = Script {
    requests: r#"{"op":"define","field":"A","kind":"NOOP","indexed":true,"reversed":false}
{"op":"define","field":"N","kind":"NUMBER","indexed":true,"reversed":false}
{"op":"ingest","records":[{"type":"lab","date":"20240101","fields":{"A":"x","N":"9","ID":"0-1"}}]}
{"op":"create","caller":"ann","query":"N == '+9.0'","from":"20240101","to":"20240101"}
{"op":"page","caller":"ann","number":1,"page":1}
{"op":"create","caller":"ann","query":"U == '1'","from":"20240101","to":"20240101"}
{"op":"create","caller":"ann","query":"A == ''","from":"20240101","to":"20240101"}
{"op":"create","caller":"ann","query":"N == 'abc'","from":"20240101","to":"20240101"}
{"op":"create","caller":"ann","query":"A == 'x\u0000'","from":"20240101","to":"20240101"}
{"op":"define","field":"A","kind":"TEXT","indexed":true,"reversed":false}
{"op":"create","caller":"ann","query":"A == 'X'","from":"20240101","to":"20240101"}
{"op":"page","caller":"ann","number":2,"page":1}"#,
    replies: r#"{"ok":"define"}
{"ok":"define"}
{"bad":[],"new":1,"ok":"ingest","repeat":0}
{"number":1,"ok":"create"}
{"events":[{"fields":{"A":["x"],"ID":["0-1"],"N":["9"]},"shard":"20240101_0","type":"lab","uid":"0000000000000000000000000000000000000000000000000000000000000001"}],"more":false,"ok":"page"}
{"error":"unanchored"}
{"error":"malformed","why":"literal"}
{"error":"malformed","why":"literal"}
{"error":"malformed","why":"literal"}
{"error":"notEmpty"}
{"number":2,"ok":"create"}
{"events":[],"more":false,"ok":"page"}
"#,
};

/// A field that is indexed after events came in.
pub const WIDENING: Script = Script {
    requests: r#"{"op":"define","field":"A","kind":"NOOP","indexed":true,"reversed":false}
{"op":"ingest","records":[{"type":"lab","date":"20240101","fields":{"A":"1","U":"a","ID":"0-1"}},{"type":"lab","date":"20240101","fields":{"A":"1","U":"b","ID":"0-2"}}]}
{"op":"create","caller":"ann","query":"A == '1' && U == 'a'","from":"20240101","to":"20240101"}
{"op":"create","caller":"ann","query":"U == 'a'","from":"20240101","to":"20240101"}
{"op":"define","field":"U","kind":"TEXT","indexed":true,"reversed":false}
{"op":"create","caller":"ann","query":"U == 'a'","from":"20240101","to":"20240101"}
{"op":"page","caller":"ann","number":2,"page":1}
{"op":"page","caller":"ann","number":1,"page":1}
{"op":"define","field":"U","kind":"NOOP","indexed":true,"reversed":false}
{"op":"define","field":"A","kind":"NOOP","indexed":false,"reversed":false}
{"op":"define","field":"A","kind":"NOOP","indexed":true,"reversed":true}
{"op":"create","caller":"ann","query":"A == '1'","from":"20240101","to":"20240101"}"#,
    replies: r#"{"ok":"define"}
{"bad":[],"new":2,"ok":"ingest","repeat":0}
{"number":1,"ok":"create"}
{"error":"unanchored"}
{"ok":"define"}
{"number":2,"ok":"create"}
{"events":[{"fields":{"A":["1"],"ID":["0-1"],"U":["a"]},"shard":"20240101_0","type":"lab","uid":"0000000000000000000000000000000000000000000000000000000000000001"}],"more":false,"ok":"page"}
{"events":[{"fields":{"A":["1"],"ID":["0-1"],"U":["a"]},"shard":"20240101_0","type":"lab","uid":"0000000000000000000000000000000000000000000000000000000000000001"}],"more":false,"ok":"page"}
{"error":"notEmpty"}
{"error":"notEmpty"}
{"ok":"define"}
{"number":3,"ok":"create"}
"#,
};

/// A range of numbers, which one value of several may meet.
pub const RANGES: Script = Script {
    requests: r#"{"op":"define","field":"N","kind":"NUMBER","indexed":true,"reversed":false}
{"op":"ingest","records":[{"type":"lab","date":"20240101","fields":{"N":"-2","ID":"0-1"}},{"type":"lab","date":"20240101","fields":{"N":"10","ID":"0-2"}},{"type":"lab","date":"20240101","fields":{"N":["9","abc"],"ID":"0-3"}}]}
{"op":"create","caller":"ann","query":"((_Bounded_ = true) && (N >= -2 && N < 10))","from":"20240101","to":"20240101"}
{"op":"page","caller":"ann","number":1,"page":1}"#,
    replies: r#"{"ok":"define"}
{"bad":[],"new":3,"ok":"ingest","repeat":0}
{"number":1,"ok":"create"}
{"events":[{"fields":{"ID":["0-1"],"N":["-2"]},"shard":"20240101_0","type":"lab","uid":"0000000000000000000000000000000000000000000000000000000000000001"},{"fields":{"ID":["0-3"],"N":["9","abc"]},"shard":"20240101_0","type":"lab","uid":"0000000000000000000000000000000000000000000000000000000000000003"}],"more":false,"ok":"page"}
"#,
};

/// Two comparisons that two values meet, and a range that neither does.
pub const SEVERAL_VALUES: Script = Script {
    requests: r#"{"op":"define","field":"K","kind":"NOOP","indexed":true,"reversed":false}
{"op":"define","field":"X","kind":"NUMBER","indexed":true,"reversed":false}
{"op":"ingest","records":[{"type":"lab","date":"20240101","fields":{"K":"k","X":["1","9"],"ID":"0-1"}}]}
{"op":"create","caller":"ann","query":"K == 'k' && X >= 3 && X <= 5","from":"20240101","to":"20240101"}
{"op":"page","caller":"ann","number":1,"page":1}
{"op":"create","caller":"ann","query":"((_Bounded_ = true) && (X >= 3 && X <= 5))","from":"20240101","to":"20240101"}
{"op":"page","caller":"ann","number":2,"page":1}"#,
    replies: r#"{"ok":"define"}
{"ok":"define"}
{"bad":[],"new":1,"ok":"ingest","repeat":0}
{"number":1,"ok":"create"}
{"events":[{"fields":{"ID":["0-1"],"K":["k"],"X":["1","9"]},"shard":"20240101_0","type":"lab","uid":"0000000000000000000000000000000000000000000000000000000000000001"}],"more":false,"ok":"page"}
{"number":2,"ok":"create"}
{"events":[],"more":false,"ok":"page"}
"#,
};

/// A negation of what one reader sees and the other does not.
pub const HIDDEN_UNDER_NEGATION: Script = Script {
    requests: r#"{"op":"define","field":"F","kind":"NOOP","indexed":true,"reversed":false}
{"op":"define","field":"G","kind":"NOOP","indexed":true,"reversed":false}
{"op":"grant","caller":"ann","auths":["S"]}
{"op":"ingest","records":[{"type":"lab","date":"20240101","fields":{"G":"x","F":{"value":"a","vis":"S"},"ID":"0-1"}}]}
{"op":"create","caller":"ann","query":"G == 'x' && !(F == 'a')","from":"20240101","to":"20240101"}
{"op":"page","caller":"ann","number":1,"page":1}
{"op":"create","caller":"bob","query":"G == 'x' && !(F == 'a')","from":"20240101","to":"20240101"}
{"op":"page","caller":"bob","number":1,"page":1}"#,
    replies: r#"{"ok":"define"}
{"ok":"define"}
{"ok":"grant"}
{"bad":[],"new":1,"ok":"ingest","repeat":0}
{"number":1,"ok":"create"}
{"events":[],"more":false,"ok":"page"}
{"number":1,"ok":"create"}
{"events":[{"fields":{"G":["x"],"ID":["0-1"]},"shard":"20240101_0","type":"lab","uid":"0000000000000000000000000000000000000000000000000000000000000001"}],"more":false,"ok":"page"}
"#,
};

/// A negation in a negation, over values that one reader does not see.
pub const NESTED_NEGATION: Script = Script {
    requests: r#"{"op":"define","field":"A","kind":"NOOP","indexed":true,"reversed":false}
{"op":"define","field":"B","kind":"NOOP","indexed":true,"reversed":false}
{"op":"define","field":"C","kind":"NOOP","indexed":true,"reversed":false}
{"op":"grant","caller":"ann","auths":["S"]}
{"op":"ingest","records":[{"type":"lab","date":"20240101","fields":{"A":"1","C":{"value":"3","vis":"S"},"ID":"0-1"}},{"type":"lab","date":"20240101","fields":{"A":"1","C":"3","ID":"0-2"}},{"type":"lab","date":"20240101","fields":{"A":"1","B":{"value":"2","vis":"S"},"C":"3","ID":"0-3"}}]}
{"op":"create","caller":"ann","query":"A == '1' && !(B == '2' || !(C == '3'))","from":"20240101","to":"20240101"}
{"op":"page","caller":"ann","number":1,"page":1}
{"op":"create","caller":"bob","query":"A == '1' && !(B == '2' || !(C == '3'))","from":"20240101","to":"20240101"}
{"op":"page","caller":"bob","number":1,"page":1}"#,
    replies: r#"{"ok":"define"}
{"ok":"define"}
{"ok":"define"}
{"ok":"grant"}
{"bad":[],"new":3,"ok":"ingest","repeat":0}
{"number":1,"ok":"create"}
{"events":[{"fields":{"A":["1"],"C":["3"],"ID":["0-1"]},"shard":"20240101_0","type":"lab","uid":"0000000000000000000000000000000000000000000000000000000000000001"},{"fields":{"A":["1"],"C":["3"],"ID":["0-2"]},"shard":"20240101_0","type":"lab","uid":"0000000000000000000000000000000000000000000000000000000000000002"}],"more":false,"ok":"page"}
{"number":1,"ok":"create"}
{"events":[{"fields":{"A":["1"],"C":["3"],"ID":["0-2"]},"shard":"20240101_0","type":"lab","uid":"0000000000000000000000000000000000000000000000000000000000000002"},{"fields":{"A":["1"],"C":["3"],"ID":["0-3"]},"shard":"20240101_0","type":"lab","uid":"0000000000000000000000000000000000000000000000000000000000000003"}],"more":false,"ok":"page"}
"#,
};

/// Queries to whose answers no index leads, and others.
pub const ANCHORS: Script = Script {
    requests: r#"{"op":"define","field":"A","kind":"NOOP","indexed":true,"reversed":false}
{"op":"create","caller":"ann","query":"!(A == '1')","from":"20240101","to":"20240101"}
{"op":"create","caller":"ann","query":"A =~ '.*x.*'","from":"20240101","to":"20240101"}
{"op":"create","caller":"ann","query":"A >= '1'","from":"20240101","to":"20240101"}
{"op":"create","caller":"ann","query":"A == '1' || U == '2'","from":"20240101","to":"20240101"}
{"op":"create","caller":"ann","query":"A == '1' && U == '2'","from":"20240101","to":"20240101"}
{"op":"page","caller":"ann","number":1,"page":1}
{"op":"create","caller":"ann","query":"!(!(A == '1'))","from":"20240101","to":"20240101"}
{"op":"page","caller":"ann","number":2,"page":1}
{"op":"create","caller":"ann","query":"A == ''","from":"20240101","to":"20240101"}"#,
    replies: r#"{"ok":"define"}
{"error":"unanchored"}
{"error":"unanchored"}
{"error":"unanchored"}
{"error":"unanchored"}
{"number":1,"ok":"create"}
{"events":[],"more":false,"ok":"page"}
{"number":2,"ok":"create"}
{"events":[],"more":false,"ok":"page"}
{"error":"malformed","why":"literal"}
"#,
};

/// A pattern with its wildcard before the text.
pub const LEADING_WILDCARD: Script = Script {
    requests: r#"{"op":"define","field":"NAME","kind":"TEXT","indexed":true,"reversed":true}
{"op":"define","field":"B","kind":"NOOP","indexed":true,"reversed":false}
{"op":"ingest","records":[{"type":"lab","date":"20240101","fields":{"NAME":"Jackson","ID":"0-1"}}]}
{"op":"create","caller":"ann","query":"NAME =~ '.*son'","from":"20240101","to":"20240101"}
{"op":"page","caller":"ann","number":1,"page":1}
{"op":"create","caller":"ann","query":"B =~ '.*son'","from":"20240101","to":"20240101"}"#,
    replies: r#"{"ok":"define"}
{"ok":"define"}
{"bad":[],"new":1,"ok":"ingest","repeat":0}
{"number":1,"ok":"create"}
{"events":[{"fields":{"ID":["0-1"],"NAME":["Jackson"]},"shard":"20240101_0","type":"lab","uid":"0000000000000000000000000000000000000000000000000000000000000001"}],"more":false,"ok":"page"}
{"error":"unanchored"}
"#,
};

/// All of them.
pub const ALL: [Script; 18] = [
    PLAIN,
    REPEATS,
    CLASH,
    ORDER,
    REFUSED_VISIBILITY,
    GRANTS,
    HIDDEN_EVENT,
    SNAPSHOT,
    TEXT,
    NUMBERS,
    DICTIONARY,
    WIDENING,
    RANGES,
    SEVERAL_VALUES,
    HIDDEN_UNDER_NEGATION,
    NESTED_NEGATION,
    ANCHORS,
    LEADING_WILDCARD,
];
