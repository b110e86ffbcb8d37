// Requests and their responses, written by hand.

pub const LOAD: &[u8] =
    b"PUT /api/d/t/_stream_load HTTP/1.1\r\nHost: 127.0.0.1:8030\r\nAuthorization: Basic cm9vdDo=\r\nUser-Agent: curl/8.5.0\r\nAccept: */*\r\nlabel: a1\r\ncolumn_separator:,\r\nContent-Length: 12\r\nExpect: 100-continue\r\n\r\n1,5\n2,7\n1,6\n";

pub const CONTINUE: &[u8] = b"HTTP/1.1 100 Continue\r\n\r\n";

pub const LOADED: &[u8] =
    b"HTTP/1.1 200 OK\r\nContent-Type: application/json\r\nContent-Length: 137\r\n\r\n{\"Label\":\"a1\",\"LoadBytes\":12,\"Message\":\"OK\",\"NumberFilteredRows\":0,\"NumberLoadedRows\":3,\"NumberTotalRows\":3,\"Status\":\"Success\",\"TxnId\":1}";

pub const USED: &[u8] =
    b"HTTP/1.1 200 OK\r\nContent-Type: application/json\r\nContent-Length: 153\r\n\r\n{\"ExistingJobStatus\":\"FINISHED\",\"ExistingTxnState\":\"VISIBLE\",\"Label\":\"a1\",\"Message\":\"Used txn=1 state=VISIBLE\",\"Status\":\"Label Already Exists\",\"TxnId\":1}";

pub const LATE: &[u8] =
    b"HTTP/1.1 200 OK\r\nContent-Type: application/json\r\nContent-Length: 171\r\n\r\n{\"Label\":\"a1\",\"LoadBytes\":12,\"Message\":\"committed, not yet published\",\"NumberFilteredRows\":0,\"NumberLoadedRows\":3,\"NumberTotalRows\":3,\"Status\":\"Publish Timeout\",\"TxnId\":1}";

pub const EXPIRED: &[u8] =
    b"HTTP/1.1 200 OK\r\nContent-Type: application/json\r\nContent-Length: 147\r\n\r\n{\"Label\":\"a1\",\"LoadBytes\":12,\"Message\":\"Expired since=7\",\"NumberFilteredRows\":0,\"NumberLoadedRows\":0,\"NumberTotalRows\":3,\"Status\":\"Fail\",\"TxnId\":1}";

pub const FILTERED: &[u8] =
    b"HTTP/1.1 200 OK\r\nContent-Type: application/json\r\nContent-Length: 169\r\n\r\n{\"Label\":\"auto_7\",\"LoadBytes\":4,\"Message\":\"TooManyFiltered filtered=1 total=1\",\"NumberFilteredRows\":1,\"NumberLoadedRows\":0,\"NumberTotalRows\":1,\"Status\":\"Fail\",\"TxnId\":7}";

pub const UNKNOWN_TABLE: &[u8] =
    b"HTTP/1.1 200 OK\r\nContent-Type: application/json\r\nContent-Length: 55\r\n\r\n{\"Label\":\"a1\",\"Message\":\"UnknownTable\",\"Status\":\"Fail\"}";

pub const CREATE: &[u8] =
    b"POST /api/query/internal/d HTTP/1.1\r\nContent-Length: 29\r\n\r\n{\"stmt\":\"CREATE DATABASE d;\"}";

pub const CREATE_TABLE: &[u8] =
    b"POST /api/query/internal/d HTTP/1.1\r\nContent-Length: 90\r\n\r\n{\"stmt\":\"CREATE TABLE t (k INT, v INT) DUPLICATE KEY(k) DISTRIBUTED BY HASH(k) BUCKETS 1\"}";

pub const CREATE_SPREAD: &[u8] =
    b"POST /api/query/internal/d HTTP/1.1\r\nContent-Length: 90\r\n\r\n{\"stmt\":\"CREATE TABLE t (k INT, v INT) DUPLICATE KEY(k) DISTRIBUTED BY HASH(k) BUCKETS 4\"}";

pub const SELECT: &[u8] =
    b"POST /api/query/internal/d HTTP/1.1\r\nContent-Length: 26\r\n\r\n{\"stmt\":\"SELECT * FROM t\"}";

pub const CLOSE: &[u8] =
    b"POST /api/query/internal/d HTTP/1.1\r\nConnection: close\r\nContent-Length: 26\r\n\r\n{\"stmt\":\"SELECT * FROM t\"}";

pub const OTHER: &[u8] =
    b"POST /api/query/internal/d HTTP/1.1\r\nContent-Length: 23\r\n\r\n{\"stmt\":\"DROP TABLE t\"}";

pub const DONE: &[u8] =
    b"HTTP/1.1 200 OK\r\nContent-Type: application/json\r\nContent-Length: 56\r\n\r\n{\"code\":0,\"data\":{\"type\":\"exec_status\"},\"msg\":\"success\"}";

pub const ROWS: &[u8] =
    b"HTTP/1.1 200 OK\r\nContent-Type: application/json\r\nContent-Length: 143\r\n\r\n{\"code\":0,\"data\":{\"data\":[[1,5],[1,6],[2,7]],\"meta\":[{\"name\":\"k\",\"type\":\"INT\"},{\"name\":\"v\",\"type\":\"INT\"}],\"type\":\"result_set\"},\"msg\":\"success\"}";

pub const LAST_ROWS: &[u8] =
    b"HTTP/1.1 200 OK\r\nContent-Type: application/json\r\nContent-Length: 143\r\nConnection: close\r\n\r\n{\"code\":0,\"data\":{\"data\":[[1,5],[1,6],[2,7]],\"meta\":[{\"name\":\"k\",\"type\":\"INT\"},{\"name\":\"v\",\"type\":\"INT\"}],\"type\":\"result_set\"},\"msg\":\"success\"}";

pub const EXISTS: &[u8] =
    b"HTTP/1.1 200 OK\r\nContent-Type: application/json\r\nContent-Length: 42\r\n\r\n{\"code\":1,\"data\":\"DbExists\",\"msg\":\"Error\"}";

pub const UNSUPPORTED: &[u8] =
    b"HTTP/1.1 200 OK\r\nContent-Type: application/json\r\nContent-Length: 55\r\n\r\n{\"code\":1,\"data\":\"Unsupported name=stmt\",\"msg\":\"Error\"}";

pub const NOT_FOUND: &[u8] =
    b"HTTP/1.1 404 Not Found\r\nContent-Type: application/json\r\nContent-Length: 20\r\n\r\n{\"error\":\"NotFound\"}";

pub const KEEPER_FAULT: &[u8] =
    b"HTTP/1.1 503 Service Unavailable\r\nContent-Type: application/json\r\nContent-Length: 23\r\n\r\n{\"error\":\"KeeperFault\"}";

pub const OUT_OF_MEMORY: &[u8] =
    b"HTTP/1.1 503 Service Unavailable\r\nContent-Type: application/json\r\nContent-Length: 23\r\n\r\n{\"error\":\"OutOfMemory\"}";

pub const CUT_BODY: &[u8] =
    b"HTTP/1.1 400 Bad Request\r\nContent-Type: application/json\r\nContent-Length: 19\r\nConnection: close\r\n\r\n{\"error\":\"CutBody\"}";

pub const BAD_HEAD: &[u8] =
    b"HTTP/1.1 400 Bad Request\r\nContent-Type: application/json\r\nContent-Length: 19\r\nConnection: close\r\n\r\n{\"error\":\"BadHead\"}";

pub const STRAY: &[u8] = b"PUT /api/d/t/_stream_load HTTP/1.1\r\nContent-Length: 4\r\n\r\n1,5\n";

pub const GET: &[u8] = b"GET /x HTTP/1.1\r\nHost: h\r\n\r\n";

pub const TWO_PHASES: &[u8] =
    b"PUT /api/d/t/_stream_load HTTP/1.1\r\nlabel: c\r\ncolumn_separator: ,\r\ntwo_phase_commit: true\r\nContent-Length: 4\r\n\r\n1,5\n";

pub const WAITING: &[u8] =
    b"HTTP/1.1 200 OK\r\nContent-Type: application/json\r\nContent-Length: 135\r\n\r\n{\"Label\":\"c\",\"LoadBytes\":4,\"Message\":\"OK\",\"NumberFilteredRows\":0,\"NumberLoadedRows\":1,\"NumberTotalRows\":1,\"Status\":\"Success\",\"TxnId\":4}";

pub const COMMIT: &[u8] =
    b"PUT /api/d/_stream_load_2pc HTTP/1.1\r\ntxn_id: 4\r\ntxn_operation: commit\r\n\r\n";

pub const COMMITTED: &[u8] =
    b"HTTP/1.1 200 OK\r\nContent-Type: application/json\r\nContent-Length: 65\r\n\r\n{\"msg\":\"transaction [4] commit successfully.\",\"status\":\"Success\"}";

pub const COMMITTED_LATE: &[u8] =
    b"HTTP/1.1 200 OK\r\nContent-Type: application/json\r\nContent-Length: 73\r\n\r\n{\"msg\":\"transaction [4] commit successfully.\",\"status\":\"Publish Timeout\"}";

pub const ABORT: &[u8] =
    b"PUT /api/d/t/_stream_load_2pc HTTP/1.1\r\nlabel: c\r\ntxn_operation: abort\r\n\r\n";

pub const ABORTED: &[u8] =
    b"HTTP/1.1 200 OK\r\nContent-Type: application/json\r\nContent-Length: 64\r\n\r\n{\"msg\":\"transaction [4] abort successfully.\",\"status\":\"Success\"}";

pub const WRONG_STATE: &[u8] =
    b"HTTP/1.1 200 OK\r\nContent-Type: application/json\r\nContent-Length: 50\r\n\r\n{\"msg\":\"WrongState state=VISIBLE\",\"status\":\"Fail\"}";

pub const BAD_END: &[u8] = b"PUT /api/d/_stream_load_2pc HTTP/1.1\r\n\r\n";

pub const NO_KEY: &[u8] =
    b"HTTP/1.1 200 OK\r\nContent-Type: application/json\r\nContent-Length: 47\r\n\r\n{\"msg\":\"BadHeader name=txn_id\",\"status\":\"Fail\"}";
