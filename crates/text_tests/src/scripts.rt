//! Lines by job, blocks, timeouts and reports. Expected from docs/RULES.md and docs/FORMATS.md.
use collation::Job;
use command::{Answer, Reply};
use job_scripts::{
    Replies, Report, Script, block_of, command_for, halves_of, joined, push_in_place, read_for,
    request_for, scripts_of, timeout_of,
};
use refusal::Refusal;
use script::Drafts;
use std::alloc::{AllocError, Global};
use std::test::Fail;

// Writes the script's job's number, a colon and its lines.
fn push_script(alloc: Global, text: &mut Vec<u8>, script: &Script<'_>) -> Result<(), AllocError> {
    let job = script.job.map_or(0, |job| job.number());
    text.extend_from_slice(job.to_string(alloc)?.as_bytes())?;
    text.push(b':')?;
    for line in &script.lines {
        text.extend_from_slice(line)?;
        text.push(b'\n')?;
    }
    Ok(())
}

// Whether the scripts, one after the other, are written so.
fn are_written(alloc: Global, scripts: &[Script<'_>], want: &str) -> Result<bool, AllocError> {
    let mut text = Vec::new(alloc);
    for script in scripts {
        push_script(alloc, &mut text, script)?;
    }
    Ok(text.as_slice() == want.as_bytes())
}

fn lines_of(scripts: &[Script<'_>]) -> usize {
    let mut lines = 0usize;
    for script in scripts {
        lines = lines.saturating_add(script.lines.len());
    }
    lines
}

// Whether the lines of a text are these by job, so many.
fn are_by_job(alloc: Global, text: &str, want: &str, lines: usize) -> Result<bool, AllocError> {
    let scripts = scripts_of(alloc, text.as_bytes())?;
    Ok(lines_of(&scripts) == lines && are_written(alloc, &scripts, want)?)
}

#[test]
fn lines_stand_by_job_in_order_of_first_lines(rt: HostRuntime) -> Result<(), Fail> {
    let rows: &[(&str, &str, usize)] = &[
        ("", "", 0),
        ("\n\r\n", "", 0),
        (
            "2 SET ^B=1\n1 SET ^A=1\n2 $GET(^B)\n",
            "2:2 SET ^B=1\n2 $GET(^B)\n1:1 SET ^A=1\n",
            3,
        ),
        // a last line without an end, a byte 13 before an end and one that isn't
        ("1 a\r\n1 b\r\r\n1 c\r", "1:1 a\n1 b\r\n1 c\r\n", 3),
        // refused lines keep their place; those without a job are a group
        (
            "x\n7 FOO\n5000 HALT\n7 HALT\n",
            "0:x\n5000 HALT\n7:7 FOO\n7 HALT\n",
            4,
        ),
        // the same job, however it is written
        ("01 HALT\n1 HALT\n", "1:01 HALT\n1 HALT\n", 2),
    ];
    for &(text, want, lines) in rows {
        assert!(rt; are_by_job(rt.alloc(), text, want, lines)?, "{text}");
    }
    Ok(())
}

#[test]
fn a_text_is_cut_behind_a_line(rt: HostRuntime) -> Result<(), Fail> {
    let rows: &[(&str, &str, &str)] = &[
        ("1 a\n2 b\n3 c\n", "1 a\n2 b\n", "3 c\n"),
        ("1 a\r\n2", "1 a\r\n", "2"),
        // the end stands just in the middle
        ("1 a\n2 b", "1 a\n", "2 b"),
        ("12\n345\n", "12\n345\n", ""),
        ("123\n45\n", "123\n", "45\n"),
        ("1 a\n2 bcdefgh", "1 a\n2 bcdefgh", ""),
        ("", "", ""),
    ];
    for &(text, front, back) in rows {
        let found = halves_of(text.as_bytes());
        assert!(rt; found.0 == front.as_bytes(), "{text}");
        assert!(rt; found.1 == back.as_bytes(), "{text}");
    }
    Ok(())
}

// Whether the lines of two texts, put together, are these by job.
fn are_joined(alloc: Global, texts: (&str, &str), want: &str) -> Result<bool, AllocError> {
    let first = scripts_of(alloc, texts.0.as_bytes())?;
    let second = scripts_of(alloc, texts.1.as_bytes())?;
    are_written(alloc, &joined(alloc, first, second)?, want)
}

#[test]
fn lines_of_two_texts_stand_by_job(rt: HostRuntime) -> Result<(), Fail> {
    let rows: &[((&str, &str), &str)] = &[
        (("", ""), ""),
        (("2 a\n", ""), "2:2 a\n"),
        (("", "2 a\n1 b\n"), "2:2 a\n1:1 b\n"),
        (("2 a\n1 b\n", "1 c\n2 d\n"), "2:2 a\n2 d\n1:1 b\n1 c\n"),
        (
            ("x\n4096 a\n", "7 b\n1 c\ny\n7 d\n4096 e\n"),
            "0:x\ny\n4096:4096 a\n4096 e\n7:7 b\n7 d\n1:1 c\n",
        ),
    ];
    for &(texts, want) in rows {
        assert!(rt; are_joined(rt.alloc(), texts, want)?, "{want}");
    }
    Ok(())
}

// How many commands and lines the block has that begins these lines, and how many lines follow it.
type Ends = (usize, usize, usize);

fn has_ends(alloc: Global, job: Job, lines: &[&[u8]], want: Ends) -> Result<bool, AllocError> {
    let mut drafts = Drafts::new(alloc);
    let block = block_of(alloc, job, lines, &mut drafts)?;
    Ok((block.commands.len(), block.places.len(), block.rest.len()) == want)
}

#[test]
fn blocks_end_where_no_transaction_is_open(rt: HostRuntime) -> Result<(), Fail> {
    let rows: &[(&[&[u8]], Ends)] = &[
        (&[b"1 SET ^A=1", b"1 TCOMMIT", b"1 SET ^B=1"], (2, 2, 1)),
        (
            &[b"1 TSTART", b"1 TCOMMIT", b"1 TCOMMIT", b"1 $TLEVEL"],
            (3, 3, 1),
        ),
        (&[b"1 TSTART", b"1 TROLLBACK", b"1 $TLEVEL"], (2, 2, 1)),
        (
            &[b"1 TSTART", b"1 TRESTART", b"1 TCOMMIT", b"1 $TLEVEL"],
            (3, 3, 1),
        ),
        (&[b"1 $GET(^A)", b"1 HALT"], (1, 1, 1)),
        (&[b"1 $GET(^A)", b"1 FOO", b"1 $GET(^B)"], (2, 3, 0)),
        (
            &[b"2 TCOMMIT", b"2 HALT", b"1 TCOMMIT", b"1 $TLEVEL"],
            (1, 3, 1),
        ),
        (&[], (0, 0, 0)),
    ];
    let job = Job::new(1)?;
    for &(lines, want) in rows {
        assert!(rt; has_ends(rt.alloc(), job, lines, want)?, "{lines:?}");
    }
    Ok(())
}

// The refusal of a line of this job, if it is refused.
fn refusal_of(alloc: Global, job: Job, line: &[u8]) -> Option<Refusal> {
    let mut drafts = Drafts::new(alloc);
    read_for(alloc, job, line, &mut drafts).err()
}

// The same of a line that is read in two steps.
fn refusal_by_steps(alloc: Global, job: Job, line: &[u8]) -> Option<Refusal> {
    let mut drafts = Drafts::new(alloc);
    match request_for(alloc, job, line, &mut drafts) {
        Ok(sentence) => command_for(alloc, job, sentence, &mut drafts).err(),
        Err(refusal) => Some(refusal),
    }
}

#[test]
fn a_line_is_read_for_its_own_job(rt: HostRuntime) -> Result<(), Fail> {
    let rows: &[(&[u8], Option<Refusal>)] = &[
        (b"1 $GET(^A)", None),
        (b"001 HALT", None),
        (b"2 $GET(^A)", Some(Refusal::BadJob)),
        (b"12 HALT", Some(Refusal::BadJob)),
        (b"2 FOO", Some(Refusal::BadLine)),
        (b"1 $GET(^A,)", Some(Refusal::BadLine)),
        (b"1 $GET(^A(\"\"))", Some(Refusal::EmptySubscript)),
        (b"2 $GET(^A(\"\"))", Some(Refusal::EmptySubscript)),
    ];
    let job = Job::new(1)?;
    for &(line, want) in rows {
        assert_eq!(rt; refusal_of(rt.alloc(), job, line), want, "{line:?}");
        assert_eq!(rt; refusal_by_steps(rt.alloc(), job, line), want, "{line:?}");
    }
    Ok(())
}

fn served_replies(alloc: Global) -> Result<Vec<Reply>, AllocError> {
    let mut served = Vec::new(alloc);
    served.push(Reply::AtLevel(2))?;
    served.push(Reply::Committed)?;
    Ok(served)
}

// The text of these replies in their places.
fn text_at(alloc: Global, job: Job, places: &[Option<Refusal>]) -> Result<Report, AllocError> {
    let mut replies = Replies::new(alloc, Some(job))?;
    push_in_place(places, served_replies(alloc)?, &mut replies)?;
    Ok(Report::new(replies))
}

#[test]
fn replies_of_a_block_stand_in_their_places(rt: HostRuntime) -> Result<(), Fail> {
    let job = Job::new(1)?;
    let report = text_at(rt.alloc(), job, &[None, Some(Refusal::BadLine), None])?;
    assert!(rt; report.text() == b"1 level 2\n1 error 1 BadLine\n1 committed\n".as_slice());
    Ok(())
}

#[test]
fn timeouts_are_seconds_behind_the_last_colon(rt: HostRuntime) -> Result<(), Fail> {
    let rows: &[(&[u8], Option<u64>)] = &[
        (b"1 LOCK +^A:5", Some(5_000)),
        (b"1 LOCK +(^A,B(\":\")):0 ", Some(0)),
        (b"1 L ^A:123456789", Some(123_456_789_000)),
        (b"1 LOCK ^A:0.5", Some(500)),
        (b"1 LOCK ^A:.25 ", Some(250)),
        (b"1 LOCK ^A:1.0019", Some(1_001)),
        (b"1 LOCK +^A(\":5\")", None),
        (b"1 LOCK", None),
    ];
    for &(line, want) in rows {
        let found = timeout_of(line);
        assert_eq!(rt; found, want);
    }
    Ok(())
}

fn two_replies(alloc: Global, job: Option<Job>) -> Result<Replies, AllocError> {
    let mut replies = Replies::new(alloc, job)?;
    replies.push(&Reply::Finished)?;
    replies.push_refused(Refusal::BadLine)?;
    Ok(replies)
}

// Whether a report of two replies has this text, and tells that one is a refusal.
fn is_told(alloc: Global, job: Option<Job>, text: &[u8]) -> Result<bool, AllocError> {
    let report = Report::new(two_replies(alloc, job)?);
    Ok(report.refused() && report.text() == text)
}

// Two replies, a refusal that is taken back, and one reply more of each kind.
fn went_back(alloc: Global, job: Job) -> Result<Report, AllocError> {
    let mut replies = Replies::new(alloc, Some(job))?;
    replies.push_done()?;
    replies.push_got(b"7")?;
    let mark = replies.mark();
    replies.push_refused(Refusal::BadLine)?;
    if !replies.back_to(mark) {
        return Err(AllocError);
    }
    replies.push_answer(&Answer::Number(10))?;
    Ok(Report::new(replies))
}

#[test]
fn replies_go_back_to_a_mark(rt: HostRuntime) -> Result<(), Fail> {
    let report = went_back(rt.alloc(), Job::new(3)?)?;
    assert!(rt; report.text() == b"3 ok\n3 7\n3 10\n".as_slice());
    assert!(rt; report.count() == 3 && !report.refused());
    Ok(())
}

#[test]
fn reports_have_a_line_for_each_reply(rt: HostRuntime) -> Result<(), Fail> {
    let job = Job::new(7).ok();
    assert!(rt; is_told(rt.alloc(), job, b"7 ok\n7 error 1 BadLine\n")?);
    assert!(rt; is_told(rt.alloc(), None, b"0 ok\n0 error 1 BadLine\n")?);
    Ok(())
}
