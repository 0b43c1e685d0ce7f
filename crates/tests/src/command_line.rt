//! Command lines that are refused before a line is read, and those that ask for help or the version.
use mc_step::run_step;
use std::alloc::{AllocError, Global};

/// Options that are refused, and after a bar how the text that reports it begins; without a bar, it is a fault of the command line.
const REFUSED: &str = "\
--other|error: unexpected argument '--other' found
--stripe 1|error: unexpected argument '--stripe' found
script|error: unexpected argument 'script' found
--buckets
--items |error:
--stripes +2|error: invalid value '+2' for '--stripes <stripes>': digits only
--stripes 4294967296
--depth 256
--depth +2|error: invalid value '+2' for '--depth <depth>': digits only
--tries 256
--limit 18446744073709551616
--limit +8|error: invalid value '+8' for '--limit <limit>': digits only
--readers 4294967296
--readers=-1
--words 0
--words 3
--words 256
--words +1|error: invalid value '+1' for '--words <words>': digits only
--buckets 4294967296
--buckets 18446744073709551620
--buckets +4|error: invalid value '+4' for '--buckets <buckets>': digits only
--buckets=-4
--buckets 4.0
--items +4|error: invalid value '+4' for '--items <items>': digits only
--mix other
--buckets 3 --words 3
--buckets 3|refused: buckets
--items 0|refused: items
--stripes 3|refused: stripes
--depth 9|refused: depth
--tries 65|refused: tries
--limit 4611686018427387905|refused: limit
--readers 0|refused: readers";

const SCRIPT: &[u8] = b"get 0\n";

/// What a run of the program leaves.
#[derive(Drop)]
struct Outcome {
    status: u8,
    output: Vec<u8>,
    errors: Vec<u8>,
    /// How many bytes of the script were not read.
    unread: usize,
}

/// Runs the program with these options, parted by blanks.
fn run(alloc: Global, options: &str) -> Result<Outcome, AllocError> {
    let mut words = vec![in alloc; "mcstep"]?;
    for option in options.split(' ') {
        words.push(option)?;
    }
    let mut input = SCRIPT;
    let mut output = Vec::new(alloc);
    let mut errors = Vec::new(alloc);
    let status = run_step(
        alloc,
        words.as_slice(),
        &mut input,
        &mut output,
        &mut errors,
    );
    let unread = input.len();
    Ok(Outcome {
        status,
        output,
        errors,
        unread,
    })
}

#[test]
fn a_refused_command_line_reads_and_writes_nothing(rt: HostRuntime) -> Result<(), AllocError> {
    for case in REFUSED.lines() {
        let (options, text) = case.split_once("|").unwrap_or((case, "error: "));
        let outcome = run(rt.alloc(), options)?;
        assert!(rt; outcome.status == 2, "the status of {options}");
        assert!(rt; outcome.output.is_empty(), "{options} writes nothing");
        assert!(rt; outcome.unread == SCRIPT.len(), "{options} reads nothing");
        assert!(rt;
            outcome.errors.as_slice().starts_with(text.as_bytes()),
            "{options} tells its fault"
        );
    }
    Ok(())
}

#[test]
fn a_short_option_prints_what_the_long_one_does(rt: HostRuntime) -> Result<(), AllocError> {
    for (short, long) in [("-h", "--help"), ("-V", "--version")] {
        let outcome = run(rt.alloc(), short)?;
        assert!(rt; outcome.status == 0);
        assert!(rt; outcome.errors.is_empty());
        assert!(rt; !outcome.output.is_empty(), "{short} prints a text");
        assert!(rt;
            outcome.output == run(rt.alloc(), long)?.output,
            "{short} is {long}"
        );
        assert!(rt; outcome.unread == SCRIPT.len());
    }
    Ok(())
}
