//! The commands of Redis that are not answered here.

/// On strings, other than those that are.
const STRINGS: [&str; 9] = [
    "bitcount",
    "bitfield",
    "bitfield_ro",
    "bitop",
    "bitpos",
    "lcs",
    "msetnx",
    "setbit",
    "substr",
];

const LISTS: [&str; 22] = [
    "blmove",
    "blmpop",
    "blpop",
    "brpop",
    "brpoplpush",
    "lindex",
    "linsert",
    "llen",
    "lmove",
    "lmpop",
    "lpop",
    "lpos",
    "lpush",
    "lpushx",
    "lrange",
    "lrem",
    "lset",
    "ltrim",
    "rpop",
    "rpoplpush",
    "rpush",
    "rpushx",
];

const HASHES: [&str; 16] = [
    "hdel",
    "hexists",
    "hget",
    "hgetall",
    "hincrby",
    "hincrbyfloat",
    "hkeys",
    "hlen",
    "hmget",
    "hmset",
    "hrandfield",
    "hscan",
    "hset",
    "hsetnx",
    "hstrlen",
    "hvals",
];

const SETS: [&str; 17] = [
    "sadd",
    "scard",
    "sdiff",
    "sdiffstore",
    "sinter",
    "sintercard",
    "sinterstore",
    "sismember",
    "smembers",
    "smismember",
    "smove",
    "spop",
    "srandmember",
    "srem",
    "sscan",
    "sunion",
    "sunionstore",
];

const SORTED_SETS: [&str; 35] = [
    "bzmpop",
    "bzpopmax",
    "bzpopmin",
    "zadd",
    "zcard",
    "zcount",
    "zdiff",
    "zdiffstore",
    "zincrby",
    "zinter",
    "zintercard",
    "zinterstore",
    "zlexcount",
    "zmpop",
    "zmscore",
    "zpopmax",
    "zpopmin",
    "zrandmember",
    "zrange",
    "zrangebylex",
    "zrangebyscore",
    "zrangestore",
    "zrank",
    "zrem",
    "zremrangebylex",
    "zremrangebyrank",
    "zremrangebyscore",
    "zrevrange",
    "zrevrangebylex",
    "zrevrangebyscore",
    "zrevrank",
    "zscan",
    "zscore",
    "zunion",
    "zunionstore",
];

/// Places, and how many values are different.
const PLACES: [&str; 15] = [
    "geoadd",
    "geodist",
    "geohash",
    "geopos",
    "georadius",
    "georadius_ro",
    "georadiusbymember",
    "georadiusbymember_ro",
    "geosearch",
    "geosearchstore",
    "pfadd",
    "pfcount",
    "pfdebug",
    "pfmerge",
    "pfselftest",
];

const STREAMS: [&str; 15] = [
    "xack",
    "xadd",
    "xautoclaim",
    "xclaim",
    "xdel",
    "xgroup",
    "xinfo",
    "xlen",
    "xpending",
    "xrange",
    "xread",
    "xreadgroup",
    "xrevrange",
    "xsetid",
    "xtrim",
];

/// Messages and scripts.
const MESSAGES: [&str; 17] = [
    "eval",
    "eval_ro",
    "evalsha",
    "evalsha_ro",
    "fcall",
    "fcall_ro",
    "function",
    "psubscribe",
    "publish",
    "pubsub",
    "punsubscribe",
    "script",
    "spublish",
    "ssubscribe",
    "subscribe",
    "sunsubscribe",
    "unsubscribe",
];

/// Keys, other databases and other servers.
const KEYS: [&str; 18] = [
    "asking",
    "cluster",
    "copy",
    "dump",
    "migrate",
    "move",
    "object",
    "readonly",
    "readwrite",
    "rename",
    "renamenx",
    "restore",
    "restore-asking",
    "sort",
    "sort_ro",
    "unwatch",
    "wait",
    "watch",
];

/// How the server is run.
const RUNNING: [&str; 21] = [
    "acl",
    "bgrewriteaof",
    "bgsave",
    "debug",
    "failover",
    "lastsave",
    "latency",
    "lolwut",
    "memory",
    "module",
    "monitor",
    "psync",
    "replconf",
    "replicaof",
    "role",
    "save",
    "shutdown",
    "slaveof",
    "swapdb",
    "sync",
    "time",
];

fn find_in(names: &[&'static str], word: &[u8]) -> Option<&'static str> {
    names
        .iter()
        .copied()
        .find(|name| word.eq_ignore_ascii_case(name.as_bytes()))
}

/// The name in lower case, where Redis has a command of it, and it is none that is answered here.
pub(crate) fn refused_name(word: &[u8]) -> Option<&'static str> {
    find_in(&LISTS, word)
        .or_else(|| find_in(&HASHES, word))
        .or_else(|| find_in(&SETS, word))
        .or_else(|| find_in(&SORTED_SETS, word))
        .or_else(|| find_in(&STREAMS, word))
        .or_else(|| find_in(&STRINGS, word))
        .or_else(|| find_in(&PLACES, word))
        .or_else(|| find_in(&MESSAGES, word))
        .or_else(|| find_in(&KEYS, word))
        .or_else(|| find_in(&RUNNING, word))
}
