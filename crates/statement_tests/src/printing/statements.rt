// Statements as tables: the text of each, and its text again.
use dl_values::NoMemory;
use sql_print::print_stmt;
use sql_text::{SqlError, parse_stmt};
use std::alloc::Global;
use std::test::Fail;

// The text of the statement of a text; empty where that is none.
fn printed(alloc: Global, text: &str) -> Result<String, NoMemory> {
    match parse_stmt(alloc, text) {
        Ok(stmt) => print_stmt(alloc, &stmt),
        Err(SqlError::SqlFault { .. }) => Ok(String::new(alloc)),
        Err(SqlError::NoMemory) => Err(NoMemory),
    }
}

// Whether a text is printed so, and what is printed is printed as itself.
fn is_printed_as(alloc: Global, text: &str, wanted: &str) -> Result<bool, NoMemory> {
    let once = printed(alloc, text)?;
    let again = printed(alloc, once.as_str())?;
    Ok(once.as_str() == wanted && again.as_str() == wanted)
}

#[test]
fn tables_are_printed_with_all_their_parts(rt: HostRuntime) -> Result<(), Fail> {
    let table = [
        ("create database d;", "CREATE DATABASE `d`"),
        (
            "Create Database If Not Exists d",
            "CREATE DATABASE IF NOT EXISTS `d`",
        ),
        ("drop table t", "DROP TABLE `t`"),
        ("drop table if exists `a b`", "DROP TABLE IF EXISTS `a b`"),
        (
            "create table t (a int) distributed by hash(a)",
            "CREATE TABLE `t` (`a` INT) DISTRIBUTED BY HASH (`a`)",
        ),
        (
            "create table if not exists t (a date, b bigint) engine = olap duplicate key(a) comment 'c' distributed by hash(a, b) buckets 0",
            "CREATE TABLE IF NOT EXISTS `t` (`a` DATE, `b` BIGINT) DUPLICATE KEY (`a`) DISTRIBUTED BY HASH (`a`, `b`) BUCKETS 0",
        ),
        (
            "create table t (k tinyint null default null comment 'c', v varchar(9223372036854775807) replace_if_not_null not null default 'it''s', w bigint sum default -9223372036854775808, d date max, e smallint min, f int replace) aggregate key (k) distributed by hash (k) properties ('a' = \"b\", 'c' = '')",
            "CREATE TABLE `t` (`k` TINYINT DEFAULT NULL, `v` VARCHAR (9223372036854775807) REPLACE_IF_NOT_NULL NOT NULL DEFAULT 'it\\'s', `w` BIGINT SUM DEFAULT -9223372036854775808, `d` DATE MAX, `e` SMALLINT MIN, `f` INT REPLACE) AGGREGATE KEY (`k`) DISTRIBUTED BY HASH (`k`) PROPERTIES ('a' = 'b', 'c' = '')",
        ),
        (
            "create table t (k int) unique key (k) partition by range (k) (partition p values less than (maxvalue), partition q values less than maxvalue, partition r values less than (5), partition s values [('1'), (2))) distributed by hash (k)",
            "CREATE TABLE `t` (`k` INT) UNIQUE KEY (`k`) PARTITION BY RANGE (`k`) (PARTITION `p` VALUES LESS THAN MAXVALUE, PARTITION `q` VALUES LESS THAN MAXVALUE, PARTITION `r` VALUES LESS THAN (5), PARTITION `s` VALUES [ ('1'), (2))) DISTRIBUTED BY HASH (`k`)",
        ),
    ];
    for (text, wanted) in table {
        assert!(rt; is_printed_as(rt.alloc(), text, wanted)?);
    }
    Ok(())
}

#[test]
fn alters_are_printed_with_all_their_parts(rt: HostRuntime) -> Result<(), Fail> {
    let table = [
        (
            "alter table t add partition p values less than ('x\ny')",
            "ALTER TABLE `t` ADD PARTITION `p` VALUES LESS THAN ('x\\ny')",
        ),
        (
            "alter table t add rollup r (a, b)",
            "ALTER TABLE `t` ADD ROLLUP `r` (`a`, `b`)",
        ),
        (
            "alter table t add column a int",
            "ALTER TABLE `t` ADD COLUMN `a` INT",
        ),
        (
            "alter table t add column a int key not null default 1 comment 'c' first, add column b int sum null after `a`",
            "ALTER TABLE `t` ADD COLUMN `a` INT KEY NOT NULL DEFAULT 1 FIRST, ADD COLUMN `b` INT SUM AFTER `a`",
        ),
        (
            "alter table t drop column a, modify column b varchar(5), order by (c, d)",
            "ALTER TABLE `t` DROP COLUMN `a`, MODIFY COLUMN `b` VARCHAR (5), ORDER BY (`c`, `d`)",
        ),
        (
            "cancel alter table column from t",
            "CANCEL ALTER TABLE COLUMN FROM `t`",
        ),
        (
            "cancel alter table rollup from t",
            "CANCEL ALTER TABLE ROLLUP FROM `t`",
        ),
    ];
    for (text, wanted) in table {
        assert!(rt; is_printed_as(rt.alloc(), text, wanted)?);
    }
    Ok(())
}

#[test]
fn queries_are_printed_with_all_their_parts(rt: HostRuntime) -> Result<(), Fail> {
    let table = [
        ("select K from t limit 5", "SELECT `K` FROM `t` LIMIT 5"),
        ("select * from t", "SELECT * FROM `t`"),
        (
            "select a, sum(b), min(b), max(b), count(b), count(*), `sum` from t group by a, `sum`",
            "SELECT `a`, SUM (`b`), MIN (`b`), MAX (`b`), COUNT (`b`), COUNT (*), `sum` FROM `t` GROUP BY `a`, `sum`",
        ),
        (
            "select a from t where a = 1 and b <> 'é' and b != '\\\\' and c < -1 and d <= 'a\"b' and e > '' and f >= 0 and g is null and h is not null",
            "SELECT `a` FROM `t` WHERE `a` = 1 AND `b` <> 'é' AND `b` <> '\\\\' AND `c` < -1 AND `d` <= 'a\"b' AND `e` > '' AND `f` >= 0 AND `g` IS NULL AND `h` IS NOT NULL",
        ),
        (
            "select a from t order by a asc, sum(b) desc, count(*), 1, -2 desc limit 9223372036854775807",
            "SELECT `a` FROM `t` ORDER BY `a`, SUM (`b`) DESC, COUNT (*), 1, -2 DESC LIMIT 9223372036854775807",
        ),
    ];
    for (text, wanted) in table {
        assert!(rt; is_printed_as(rt.alloc(), text, wanted)?);
    }
    Ok(())
}

#[test]
fn the_rest_is_printed(rt: HostRuntime) -> Result<(), Fail> {
    let table = [
        ("show tables", "SHOW TABLES"),
        ("show partitions from t", "SHOW PARTITIONS FROM `t`"),
        ("desc t all", "DESC `t` ALL"),
        ("show alter table column", "SHOW ALTER TABLE COLUMN"),
        ("show alter table rollup", "SHOW ALTER TABLE ROLLUP"),
        (
            "show transaction where id = 7",
            "SHOW TRANSACTION WHERE ID = 7",
        ),
        (
            "show transaction where label = 'a\0\tb\r'",
            "SHOW TRANSACTION WHERE LABEL = 'a\0\\tb\\r'",
        ),
        ("admin publish", "ADMIN PUBLISH"),
        ("admin advance", "ADMIN ADVANCE"),
        ("admin convert", "ADMIN CONVERT"),
        ("admin sweep", "ADMIN SWEEP"),
        ("admin compact", "ADMIN COMPACT"),
        ("admin checkpoint", "ADMIN CHECKPOINT"),
        ("admin restart", "ADMIN RESTART"),
        ("admin audit drop 0", "ADMIN AUDIT DROP 0"),
    ];
    for (text, wanted) in table {
        assert!(rt; is_printed_as(rt.alloc(), text, wanted)?);
    }
    Ok(())
}
