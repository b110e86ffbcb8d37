// Runs of `run`: requests and their responses, byte for byte.
use super::runs::compare;
use service::Exit;
use std::test::Fail;

// A database and a table, a load as curl sends it, the load again, and a query.
const FIRST_LOAD: &[u8] =
    b"POST /api/query/internal/d HTTP/1.1\r\nHost: 127.0.0.1:8030\r\nContent-Type: application/json\r\nContent-Length: 28\r\n\r\n{\"stmt\":\"CREATE DATABASE d\"}POST /api/query/internal/d HTTP/1.1\r\nHost: 127.0.0.1:8030\r\nContent-Type: application/json\r\nContent-Length: 90\r\n\r\n{\"stmt\":\"CREATE TABLE t (k INT, v INT) DUPLICATE KEY(k) DISTRIBUTED BY HASH(k) BUCKETS 1\"}PUT /api/d/t/_stream_load HTTP/1.1\r\nHost: 127.0.0.1:8030\r\nAuthorization: Basic cm9vdDo=\r\nUser-Agent: curl/8.5.0\r\nAccept: */*\r\nlabel: a1\r\ncolumn_separator:,\r\nContent-Length: 12\r\nExpect: 100-continue\r\n\r\n1,5\n2,7\n1,6\nPUT /api/d/t/_stream_load HTTP/1.1\r\nHost: 127.0.0.1:8030\r\nAuthorization: Basic cm9vdDo=\r\nUser-Agent: curl/8.5.0\r\nAccept: */*\r\nlabel: a1\r\ncolumn_separator:,\r\nContent-Length: 12\r\nExpect: 100-continue\r\n\r\n1,5\n2,7\n1,6\nPOST /api/query/internal/d HTTP/1.1\r\nHost: 127.0.0.1:8030\r\nContent-Type: application/json\r\nContent-Length: 26\r\n\r\n{\"stmt\":\"SELECT * FROM t\"}";

const FIRST_LOAD_ANSWERED: &[u8] =
    b"HTTP/1.1 200 OK\r\nContent-Type: application/json\r\nContent-Length: 56\r\n\r\n{\"code\":0,\"data\":{\"type\":\"exec_status\"},\"msg\":\"success\"}HTTP/1.1 200 OK\r\nContent-Type: application/json\r\nContent-Length: 56\r\n\r\n{\"code\":0,\"data\":{\"type\":\"exec_status\"},\"msg\":\"success\"}HTTP/1.1 100 Continue\r\n\r\nHTTP/1.1 200 OK\r\nContent-Type: application/json\r\nContent-Length: 137\r\n\r\n{\"Label\":\"a1\",\"LoadBytes\":12,\"Message\":\"OK\",\"NumberFilteredRows\":0,\"NumberLoadedRows\":3,\"NumberTotalRows\":3,\"Status\":\"Success\",\"TxnId\":1}HTTP/1.1 100 Continue\r\n\r\nHTTP/1.1 200 OK\r\nContent-Type: application/json\r\nContent-Length: 153\r\n\r\n{\"ExistingJobStatus\":\"FINISHED\",\"ExistingTxnState\":\"VISIBLE\",\"Label\":\"a1\",\"Message\":\"Used txn=1 state=VISIBLE\",\"Status\":\"Label Already Exists\",\"TxnId\":1}HTTP/1.1 200 OK\r\nContent-Type: application/json\r\nContent-Length: 143\r\n\r\n{\"code\":0,\"data\":{\"data\":[[1,5],[1,6],[2,7]],\"meta\":[{\"name\":\"k\",\"type\":\"INT\"},{\"name\":\"v\",\"type\":\"INT\"}],\"type\":\"result_set\"},\"msg\":\"success\"}";

// A load of 12 bytes of which 7 came.
const CUT_BODY: &[u8] =
    b"PUT /api/d/t/_stream_load HTTP/1.1\r\nHost: 127.0.0.1:8030\r\nlabel: a1\r\nContent-Length: 12\r\n\r\n1,5\n2,7";

const CUT_BODY_ANSWERED: &[u8] =
    b"HTTP/1.1 400 Bad Request\r\nContent-Type: application/json\r\nContent-Length: 19\r\nConnection: close\r\n\r\n{\"error\":\"CutBody\"}";

// A target that is not served, and a request behind it.
const UNKNOWN_TARGET: &[u8] =
    b"GET /x HTTP/1.1\r\nHost: 127.0.0.1:8030\r\n\r\nPOST /api/query/internal/d HTTP/1.1\r\nHost: 127.0.0.1:8030\r\nContent-Type: application/json\r\nContent-Length: 28\r\n\r\n{\"stmt\":\"CREATE DATABASE d\"}";

const UNKNOWN_TARGET_ANSWERED: &[u8] =
    b"HTTP/1.1 404 Not Found\r\nContent-Type: application/json\r\nContent-Length: 20\r\n\r\n{\"error\":\"NotFound\"}HTTP/1.1 200 OK\r\nContent-Type: application/json\r\nContent-Length: 56\r\n\r\n{\"code\":0,\"data\":{\"type\":\"exec_status\"},\"msg\":\"success\"}";

// Requests, how a run over them ends, and its responses.
const RUNS: &[(&[u8], Exit, &[u8])] = &[
    (b"", Exit::Ok, b""),
    (FIRST_LOAD, Exit::Ok, FIRST_LOAD_ANSWERED),
    (CUT_BODY, Exit::Refused { at: 0 }, CUT_BODY_ANSWERED),
    (UNKNOWN_TARGET, Exit::Ok, UNKNOWN_TARGET_ANSWERED),
];

fn runs() -> &'static [(&'static [u8], Exit, &'static [u8])] {
    RUNS
}

#[test]
fn requests_are_answered(rt: HostRuntime) -> Result<(), Fail> {
    for (requests, exit, responses) in runs() {
        compare(&rt, rt.alloc(), &["run"], requests, *exit, responses)?;
    }
    Ok(())
}
