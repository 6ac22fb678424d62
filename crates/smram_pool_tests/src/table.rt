use smm_base::NoMemory;
use smram_pool::{Pool, PoolError};
use std::alloc::Global;
use std::test::Fail;

// A call of the table: its name, a place or a size, a number of pages, and the answer that the table tells.
#[derive(Drop)]
struct Line<'a> {
    name: &'a str,
    first: u64,
    second: u32,
    told: &'a str,
}

fn parsed(line: &str) -> Option<Line<'_>> {
    let (name, numbers) = line.split_once(" ")?;
    let (first, rest) = numbers.split_once(" ")?;
    let (second, told) = rest.split_once(" ")?;
    let first = first.parse::<u64>().ok()?;
    let second = second.parse::<u32>().ok()?;
    Some(Line {
        name,
        first,
        second,
        told,
    })
}

fn called(pool: &mut Pool, line: &Line<'_>) -> Result<Option<u64>, PoolError> {
    if line.name == "alloc" {
        return Ok(Some(pool.alloc(line.first)?));
    }
    if line.name == "pages" {
        return Ok(Some(pool.alloc_pages(line.second)?));
    }
    if line.name == "free" {
        pool.free(line.first)?;
        return Ok(None);
    }
    pool.free_pages(line.first, line.second)?;
    Ok(None)
}

fn is_told(answer: Result<Option<u64>, PoolError>, line: &Line<'_>) -> bool {
    match answer {
        Ok(Some(place)) => line.told.parse::<u64>().ok() == Some(place),
        Ok(None) => line.told == "ok",
        Err(PoolError::Zero) => line.told == "zero",
        Err(PoolError::OutOfResources) => line.told == "out",
        Err(PoolError::NotABlock(place)) => line.told == "not" && place == line.first,
    }
}

// Is the answer of the line's call the one that the line tells?
fn is_as_told(alloc: Global, pool: &mut Pool, line: &Line<'_>) -> Result<bool, NoMemory> {
    if line.name != "new" {
        return Ok(is_told(called(pool, line), line));
    }
    if line.second > 2048 || line.first % 4096 != 0 || line.first >= 9223372036854775808 {
        return Ok(false);
    }
    *pool = Pool::new(alloc, line.first, line.second)?;
    Ok(line.told == "ok")
}

// The first line whose answer is another than it tells.
fn first_wrong(alloc: Global, table: &str) -> Result<String, NoMemory> {
    let mut pool = Pool::new(alloc, 0, 0)?;
    for text in table.lines() {
        let is_right = match parsed(text) {
            Some(line) => is_as_told(alloc, &mut pool, &line)?,
            None => false,
        };
        if !is_right {
            return Ok(String::from_str(alloc, text)?);
        }
    }
    Ok(String::new(alloc))
}

#[test]
fn each_call_answers_as_the_reference(rt: HostRuntime) -> Result<(), Fail> {
    assert_eq!(rt; first_wrong(rt.alloc(), CALLS)?.as_str(), "");
    Ok(())
}

// What reference/pool.py prints.
const CALLS: &str = "new 1048576 1 ok
alloc 64 0 1048576
alloc 64 0 1048640
alloc 100 0 1048704
alloc 4096 0 out
alloc 0 0 zero
free 1048577 0 not
free 1048576 0 ok
alloc 1 0 1048576
new 1048576 0 ok
alloc 1 0 out
alloc 5000 0 out
pages 0 1 out
pages 0 0 zero
free 1048576 0 not
unpages 1048576 0 not
new 2097152 4 ok
alloc 1 0 2097152
alloc 64 0 2097216
alloc 65 0 2097280
alloc 128 0 2097408
alloc 129 0 2097664
alloc 256 0 2097920
alloc 257 0 2098176
alloc 512 0 2098688
alloc 513 0 2099200
alloc 1024 0 2100224
alloc 1025 0 2101248
alloc 2048 0 2103296
alloc 64 0 2097536
alloc 128 0 2105344
alloc 256 0 2105600
alloc 512 0 2105856
alloc 1024 0 2106368
alloc 2048 0 2107392
alloc 2048 0 2109440
alloc 2048 0 2111488
new 3145728 1 ok
alloc 128 0 3145728
alloc 128 0 3145856
alloc 128 0 3145984
alloc 128 0 3146112
alloc 128 0 3146240
alloc 128 0 3146368
alloc 128 0 3146496
alloc 128 0 3146624
alloc 128 0 3146752
alloc 128 0 3146880
alloc 128 0 3147008
alloc 128 0 3147136
alloc 128 0 3147264
alloc 128 0 3147392
alloc 128 0 3147520
alloc 128 0 3147648
alloc 128 0 3147776
alloc 128 0 3147904
alloc 128 0 3148032
alloc 128 0 3148160
alloc 128 0 3148288
alloc 128 0 3148416
alloc 128 0 3148544
alloc 128 0 3148672
alloc 128 0 3148800
alloc 128 0 3148928
alloc 128 0 3149056
alloc 128 0 3149184
alloc 128 0 3149312
alloc 128 0 3149440
alloc 128 0 3149568
alloc 128 0 3149696
alloc 128 0 out
free 3146112 0 ok
free 3146112 0 not
free 3149568 0 ok
free 3149568 0 not
free 3145728 0 ok
free 3145728 0 not
free 3147904 0 ok
free 3147904 0 not
free 3149696 0 ok
free 3149696 0 not
free 3146240 0 ok
free 3146240 0 not
alloc 64 0 3146240
alloc 128 0 3149696
alloc 128 0 3147904
alloc 128 0 3145728
alloc 128 0 3149568
alloc 128 0 3146112
alloc 128 0 out
alloc 128 0 out
alloc 256 0 out
new 4194304 2 ok
alloc 2048 0 4194304
alloc 2048 0 4196352
alloc 2048 0 4198400
alloc 2048 0 4200448
free 4198400 0 ok
free 4194304 0 ok
free 4200448 0 ok
free 4196352 0 ok
alloc 4096 0 out
alloc 1024 0 4196352
alloc 1024 0 4197376
alloc 512 0 4200448
alloc 2048 0 4194304
alloc 2048 0 4198400
alloc 64 0 4200960
alloc 2048 0 out
new 5242880 10 ok
pages 0 2 5242880
pages 0 1 5251072
pages 0 3 5255168
pages 0 1 5267456
pages 0 2 5271552
pages 0 1 5279744
pages 0 1 out
free 5251072 0 ok
unpages 5255168 2 not
unpages 5259264 2 not
free 5259264 0 not
unpages 5255168 3 ok
unpages 5255168 3 not
pages 0 5 out
pages 0 4 5251072
unpages 5271552 2 ok
pages 0 2 5271552
free 5242880 0 ok
alloc 2049 0 5242880
alloc 64 0 5246976
alloc 4097 0 out
free 5251072 0 ok
alloc 8192 0 5251072
alloc 12288 0 out
alloc 16385 0 out
new 6291456 3 ok
alloc 18446744073709551615 0 out
alloc 9223372036854775808 0 out
pages 0 4294967295 out
pages 0 4 out
alloc 12288 0 6291456
alloc 12288 0 out
free 0 0 not
free 6287360 0 not
free 6291520 0 not
free 6295552 0 not
free 6303744 0 not
free 18446744073709551615 0 not
unpages 6291456 2 not
unpages 6291456 4 not
free 6291456 0 ok
free 6291456 0 not
alloc 2048 0 6291456
unpages 6291456 1 not
pages 0 1 6295552
free 6295552 0 ok
alloc 2048 0 6293504
alloc 2048 0 6295552
free 6293504 0 ok
pages 0 1 6299648
pages 0 1 out
alloc 700 0 6293504
alloc 300 0 6294528
free 6294528 0 ok
free 6294016 0 not
alloc 200 0 6294528
new 7340032 2 ok
alloc 37 0 7340032
alloc 74 0 7340160
free 7341312 0 not
alloc 148 0 7340288
alloc 185 0 7340544
free 7342592 0 not
alloc 259 0 7341056
alloc 296 0 7341568
free 7343872 0 not
alloc 370 0 7342080
alloc 407 0 7342592
free 7341056 0 ok
alloc 481 0 7341056
alloc 518 0 7343104
free 7342336 0 not
alloc 592 0 7344128
alloc 29 0 7340096
free 7343616 0 not
alloc 103 0 7340800
alloc 140 0 7345152
free 7340800 0 ok
alloc 214 0 7345408
alloc 251 0 7345664
free 7342080 0 ok
alloc 325 0 7342080
alloc 362 0 7346176
free 7343360 0 not
alloc 436 0 7346688
alloc 473 0 7347200
free 7340544 0 ok
alloc 547 0 out
alloc 584 0 out
free 7341824 0 not
alloc 58 0 7340800
alloc 95 0 7340928
free 7343104 0 ok
alloc 169 0 7340544
alloc 206 0 7345920
free 7340288 0 ok
pages 0 1 out";
