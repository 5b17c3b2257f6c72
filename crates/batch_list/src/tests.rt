// Lists as they are read, and as they are refused.
use crate::{ListFail, ListKind, WordLists, read_list};
use std::alloc::{AllocError, Global};
use std::test::Fail;

// Texts that are no list, each with the first rule that it breaks.
const REFUSED: [(&[u8], ListKind); 20] = [
    (b"", ListKind::NoDiscs),
    (b"\xef\xbb\xbf", ListKind::NoDiscs),
    (b"disc = 1", ListKind::NoDiscs),
    (b"disc = []", ListKind::NoDiscs),
    (b"disc = {words = [\"sums\", \"q\"]}", ListKind::NoDiscs),
    (b"[disc]\nwords = [\"sums\", \"q\"]\n", ListKind::NoDiscs),
    (b"[[Disc]]\nwords = [\"sums\", \"q\"]\n", ListKind::NoDiscs),
    (b"disc", ListKind::NotToml),
    (b"# \xff", ListKind::NotToml),
    (b"\xef\xbb", ListKind::NotToml),
    (b"disc = [1]", ListKind::BadDisc { disc: 1 }),
    (b"[[disc]]\n", ListKind::BadDisc { disc: 1 }),
    (
        b"[[disc]]\nwords = \"sums\"\n",
        ListKind::BadDisc { disc: 1 },
    ),
    (
        b"[[disc]]\nwords = [\"sums\", 1]\n",
        ListKind::BadDisc { disc: 1 },
    ),
    (
        b"[[disc]]\nwords = [\"sums\", \"q\"]\n[[disc]]\nwords = [\"x\", [\"q\"]]\n",
        ListKind::BadDisc { disc: 2 },
    ),
    (
        b"[[disc]]\nwords = []\n[[disc]]\n",
        ListKind::BadWords { disc: 1, word: 0 },
    ),
    (
        b"[[disc]]\nwords = [\"batch\", \"l.toml\"]\n",
        ListKind::BadWords { disc: 1, word: 0 },
    ),
    (
        b"[[disc]]\nwords = [\"sums\", \"q\"]\n[[disc]]\nwords = [\"sums\"]\n",
        ListKind::BadWords { disc: 2, word: 1 },
    ),
    (
        b"[[disc]]\nwords = [\"sums\", \"q\", \"r\"]\n",
        ListKind::BadWords { disc: 1, word: 2 },
    ),
    (
        b"[[disc]]\nwords = [\"verify\", \"a\", \"b\", \"--offset=5880\"]\n",
        ListKind::BadWords { disc: 1, word: 3 },
    ),
];

#[test]
fn the_first_broken_rule_is_told(rt: HostRuntime) -> Result<(), Fail> {
    for (text, kind) in REFUSED {
        let refused = read_list(rt.alloc(), text).err();
        assert_eq!(rt; refused, Some(ListFail::Refused { kind }));
    }
    Ok(())
}

// The words of a list, each word with a `|` after it, and each disc with a line end.
fn written(alloc: Global, lists: &WordLists) -> Result<String, AllocError> {
    let mut text = String::new(alloc);
    for words in lists.as_slice() {
        for word in words.as_slice() {
            text.push_str(word)?;
            text.push('|')?;
        }
        text.push('\n')?;
    }
    Ok(text)
}

// Texts that are lists, each with its words.
const READ: [(&[u8], &str); 6] = [
    (
        b"[[disc]]\nwords = [\"register\", \"z.wav\", \"r.rpar\"]\n[[disc]]\nwords = [\"verify\", \"z.wav\", \"r.rpar\", \"--offset=0\"]\n",
        "register|z.wav|r.rpar|\nverify|z.wav|r.rpar|--offset=0|\n",
    ),
    (
        b"disc = [{words = ['sums', \"b\"]}, {words = [\"sums\", \"a\"]}]",
        "sums|b|\nsums|a|\n",
    ),
    (
        b"\xef\xbb\xbf[[disc]]\nwords = [\"sums\", \"q\"]\n",
        "sums|q|\n",
    ),
    (
        b"words = 1\n[[disc]]\nname = 1979-05-27\nwords = [\"sums\", \"q\"]\n[disc.words2]\nwords = 1\n[discs]\nwords = []\n",
        "sums|q|\n",
    ),
    (
        b"[[disc]]\nwords = [\"sums\", \"a b \\u00e9\\n\"]\n",
        "sums|a b \u{e9}\n|\n",
    ),
    (
        b"[[disc]]\nwords = [\"sums\", \"batch\"]\n",
        "sums|batch|\n",
    ),
];

#[test]
fn each_disc_has_its_words(rt: HostRuntime) -> Result<(), Fail> {
    for (text, words) in READ {
        match read_list(rt.alloc(), text) {
            Ok(lists) => assert_eq!(rt; written(rt.alloc(), &lists)?.as_str(), words),
            Err(fail) => assert!(rt; false, "{fail:?}"),
        }
    }
    Ok(())
}

// The same disc so many times, with these bytes behind.
fn discs(alloc: Global, count: usize, end: &[u8]) -> Result<Vec<u8>, AllocError> {
    let mut text = Vec::new(alloc);
    for _ in 0..count {
        text.extend_from_slice(b"[[disc]]\nwords = [\"sums\", \"q\"]\n")?;
    }
    text.extend_from_slice(end)?;
    Ok(text)
}

#[test]
fn a_thousand_discs_are_read(rt: HostRuntime) -> Result<(), Fail> {
    let count = read_list(rt.alloc(), &discs(rt.alloc(), 1000, b"")?).map(|lists| lists
        .as_slice()
        .len());
    assert_eq!(rt; count, Ok(1000));
    let bad = read_list(rt.alloc(), &discs(rt.alloc(), 999, b"[[disc]]\n")?).err();
    let kind = ListKind::BadDisc { disc: 1000 };
    assert_eq!(rt; bad, Some(ListFail::Refused { kind }));
    Ok(())
}

#[test]
fn more_are_too_many(rt: HostRuntime) -> Result<(), Fail> {
    let kind = ListKind::TooMany;
    for end in [b"" as &[u8], b"[[disc]]\n"] {
        let refused = read_list(rt.alloc(), &discs(rt.alloc(), 1001, end)?).err();
        assert_eq!(rt; refused, Some(ListFail::Refused { kind }));
    }
    Ok(())
}
