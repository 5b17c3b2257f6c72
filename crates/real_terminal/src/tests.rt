// What is drawn, which no clause tells.
use crate::{ReadingLine, Screen};
use rip_progress::Watcher;
use std::alloc::Global;
use std::cell::Cell;
use std::fmt::Display;
use std::io::{self, Eprint};
use std::rt::Clock;
use std::test::Fail;
use std::time::Duration;

// A clock that stands until it is set, and all that was printed on either stream.
#[derive(Drop)]
struct Stage {
    rt: HostRuntime,
    milliseconds: Cell<u64>,
    printed: Cell<Option<String>>,
}

impl Stage {
    fn new(rt: HostRuntime) -> Self {
        Stage {
            rt,
            milliseconds: Cell::new(0),
            printed: Cell::new(None),
        }
    }

    // Adds to what was printed.
    fn add<D: Display + Drop>(&self, value: D) -> io::Result<()> {
        let before = self.taken();
        let after = format!(in self.rt.alloc(); "{before}{value}")?;
        self.printed.set(Some(after));
        Ok(())
    }

    // What was printed since the last call.
    fn taken(&self) -> String {
        match self.printed.take() {
            Some(printed) => printed,
            None => String::new(self.rt.alloc()),
        }
    }
}

impl Alloc for Stage {
    type A = Global;

    fn alloc(&self) -> Global {
        self.rt.alloc()
    }
}

impl Clock for Stage {
    fn monotonic(&self) -> io::Result<Duration> {
        Ok(Duration::from_millis(self.milliseconds.get()))
    }

    fn since_1970(&self) -> io::Result<Duration> {
        self.monotonic()
    }
}

impl Eprint for Stage {
    fn eprint<D: Display + Drop>(&self, value: D) -> io::Result<()> {
        self.add(value)
    }

    fn eprintln<D: Display + Drop>(&self, value: D) -> io::Result<()> {
        self.add(value)?;
        self.add("\n")
    }
}

impl Print for Stage {
    fn print<D: Display + Drop>(&self, value: D) -> io::Result<()> {
        self.add(value)
    }

    fn println<D: Display + Drop>(&self, value: D) -> io::Result<()> {
        self.add(value)?;
        self.add("\n")
    }

    fn write_all(&self, _bytes: &[u8]) -> io::Result<()> {
        self.add("<bytes>")
    }
}

#[test]
fn a_line_is_drawn_and_cleared(rt: HostRuntime) -> Result<(), Fail> {
    let stage = Stage::new(rt);
    let screen = Screen::new(&stage);
    let mut line = ReadingLine::new(&screen, true);
    line.sized("shelf/disc.wav", 700_000_044);
    for (milliseconds, at, wanted) in [
        (0, 0, ""),
        (999, 100_000_000, ""),
        (
            1_000,
            200_000_000,
            "\rrip: disc.wav: 201 of 700 MB, 3 MB/s\x1b[K",
        ),
        (1_199, 300_000_000, ""),
        (
            1_200,
            400_000_000,
            "\rrip: disc.wav: 401 of 700 MB, 4 MB/s\x1b[K",
        ),
    ] {
        stage.milliseconds.set(milliseconds);
        line.read("shelf/disc.wav", at, 1_000_000);
        assert_eq!(rt; stage.taken().as_str(), wanted);
    }
    // Below a million bytes the clock isn't looked at.
    stage.milliseconds.set(2_000);
    line.read("shelf/disc.wav", 500_000_000, 999_999);
    assert_eq!(rt; stage.taken().as_str(), "");
    line.read("other\u{7}.rpar", 0, 1);
    assert_eq!(rt;
        stage.taken().as_str(),
        "\rrip: other?.rpar: 6 MB in all, 3 MB/s\x1b[K"
    );
    // It is cleared once, before a failure is told.
    screen.eprintln("rip: other: No such file")?;
    assert_eq!(rt;
        stage.taken().as_str(),
        "\r\x1b[Krip: other: No such file\n"
    );
    screen.write_all(b"done")?;
    assert_eq!(rt; stage.taken().as_str(), "<bytes>");
    // What was told of lengths is forgotten with the command.
    line.done();
    stage.milliseconds.set(3_000);
    line.read("shelf/disc.wav", 600_000_000, 1_000_000);
    assert_eq!(rt;
        stage.taken().as_str(),
        "\rrip: disc.wav: 7 MB in all, 2 MB/s\x1b[K"
    );
    screen.write_all(b"done")?;
    assert_eq!(rt; stage.taken().as_str(), "\r\x1b[K<bytes>");
    screen.clear();
    assert_eq!(rt; stage.taken().as_str(), "");
    Ok(())
}

#[test]
fn long_names_are_cut(rt: HostRuntime) -> Result<(), Fail> {
    let stage = Stage::new(rt);
    let screen = Screen::new(&stage);
    let mut line = ReadingLine::new(&screen, true);
    for (name, wanted) in [
        (
            "a/123456789012345678901234567890123456.wav",
            "\rrip: 123456789012345678901234567890123456..: 2 MB in all, 2 MB/s\x1b[K",
        ),
        (
            "音音音音音音音音音音音音音音音音音音音",
            "\rrip: 音音音音音音音音音音音音音音音音音音..: 4 MB in all, 2 MB/s\x1b[K",
        ),
    ] {
        line.read(name, 0, 1_000_000);
        stage
            .milliseconds
            .set(stage.milliseconds.get().wrapping_add(1_000));
        line.read(name, 1_000_000, 1_000_000);
        assert_eq!(rt; stage.taken().as_str(), wanted);
    }
    Ok(())
}

#[test]
fn nothing_is_drawn_where_no_line_is_shown(rt: HostRuntime) -> Result<(), Fail> {
    let stage = Stage::new(rt);
    let screen = Screen::new(&stage);
    let mut line = ReadingLine::new(&screen, false);
    line.sized("disc.wav", 700_000_044);
    for second in 0..5 {
        stage.milliseconds.set(second * 1_000);
        line.read("disc.wav", second * 8_000_000, 8_000_000);
    }
    line.done();
    screen.clear();
    assert_eq!(rt; stage.taken().as_str(), "");
    Ok(())
}
