//! Sessions that aren't opened: who would ask isn't asked. Rows of words are followed by the status and what the error side is
//! told.

use crate::holding::{GOOD, hold, is_held, over};
use std::alloc::Global;

// Whether words over a document come to this, and nobody is asked.
fn comes_to(alloc: Global, words: &str, document: &str, status: u8, errors: &str) -> Option<bool> {
    let held = hold(alloc, over(words, document, &["document"])).ok()?;
    Some(is_held(&held, "", errors, status) && held.asked == 0)
}

const TWICE: &str = "{\"p:c\":{\"id\":1,\"id\":2}}";

#[test]
fn refused_files(rt: HostRuntime) {
    let alloc = rt.alloc();
    assert!(rt;
        comes_to(
            alloc,
            "yanglive session d.json p.yang",
            GOOD,
            2,
            "p.yang:6: C1\n"
        ) == Some(true)
    );
    assert!(rt;
        comes_to(
            alloc,
            "yanglive session --profile rfc --unjudged must d.json p.yang",
            "{",
            2,
            "d.json: J1 /\n"
        ) == Some(true)
    );
    assert!(rt;
        comes_to(
            alloc,
            "yanglive session --profile rfc --unjudged must --strict d.json p.yang",
            TWICE,
            2,
            "d.json: J8 /p:c/id\n"
        ) == Some(true)
    );
    assert!(rt;
        comes_to(
            alloc,
            "yanglive session --profile rfc --unjudged must x.json p.yang",
            GOOD,
            4,
            "cannot read x.json\n"
        ) == Some(true)
    );
    assert!(rt;
        comes_to(
            alloc,
            "yanglive session --explain --profile rfc --unjudged must x.json p.yang",
            GOOD,
            4,
            "cannot read x.json\n  no such file.\n"
        ) == Some(true)
    );
}

// Whether words are refused with this status and a sentence, and nobody is asked.
fn is_misused(alloc: Global, words: &str, sentence: &str) -> Option<bool> {
    let held = hold(alloc, over(words, GOOD, &["document"])).ok()?;
    Some(
        held.status == 3 && held.asked == 0 && held.errors.bytes().starts_with(sentence.as_bytes()),
    )
}

#[test]
fn refused_words(rt: HostRuntime) {
    let alloc = rt.alloc();
    assert!(rt;
        is_misused(
            alloc,
            "yanglive session - p.yang",
            "error: DATA of a session can't be -: standard input has the requests\n"
        ) == Some(true)
    );
    assert!(rt;
        is_misused(
            alloc,
            "yanglive session --format json d.json p.yang",
            "error: unexpected argument '--format'"
        ) == Some(true)
    );
    assert!(rt;
        is_misused(
            alloc,
            "yanglive session --undo many d.json p.yang",
            "error: invalid value 'many' for '--undo <N>': it isn't a whole number in 0..=4294967295\n"
        ) == Some(true)
    );
    assert!(rt;
        is_misused(
            alloc,
            "yanglive session --undo 4294967296 d.json p.yang",
            "error: invalid value '4294967296' for '--undo <N>'"
        ) == Some(true)
    );
    assert!(rt; is_misused(alloc, "yanglive session --undo d.json", "error: ") == Some(true));
    assert!(rt;
        is_misused(
            alloc,
            "yanglive session d.json",
            "error: the following required arguments were not provided"
        ) == Some(true)
    );
}
