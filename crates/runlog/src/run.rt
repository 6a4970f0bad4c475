// The run over the records: each by the step of the state before it, until one stops it.
ghost use Rattle.std.specs.Prelude.{◌≡◌, ◌+◌, ◌*◌, ◌≤◌, length};
ghost use Rattle.header.specs.Header.{max_log, size_of};
ghost use Rattle.runlog.specs.Records.{record_size};
ghost use Rattle.runlog.specs.Runs.{run_as, Turned, run_through, closed_of, played_of};

use super::record;
use super::record::Record;
use base::Stop;
use buffers::sources::Source;
use state::State;

// What a run has come to: the state, the records taken, the stop, and where the last value read came from.
#[derive(Clone, Copy)]
pub struct Run {
    pub state: State,
    pub steps: u32,
    pub stop: Stop,
    pub read: Source,
}

impl Run {
    // "Fewer than 8 bytes left: stop 14. None left: stop 0."
    fn closed(mut self, left: u32) -> Run
        ensures { run_as result ≡ closed_of (run_as self) left }
    {
        match self.stop {
            Stop::Ended => {
                if left != 0 {
                    self.stop = Stop::FewLeft;
                }
                self
            }
            _ => self,
        }
    }
}

// A record's turn, in place: where the value came from that it read. A wrong check comes before any refusal of that
// record, and a record that stops the run leaves the state.
fn turn(s: &mut State, r: Record) -> Result<Source, Stop>
    ensures { Turned s.old r s.new result }
{
    if r.check != record::check_of(r.choice) {
        return Err(Stop::WrongCheck);
    }
    let source = engine::turn(s, r.choice)?;
    Ok(source)
}

// The run of so many records, from a place on.
fn records(log: &[u8], at: u32, start: State, whole: u32) -> Run
    requires { (at + record_size * whole ≤ length log.now) × (length log.now ≤ max_log) }
    ensures { run_as result ≡ run_through log.now at start whole }
{
    let mut state = start;
    let mut read = Source::Nothing;
    for steps in 0..whole {
        match turn(&mut state, record::read(log, at + Record::SIZE * steps)) {
            Ok(from) => read = from.after(read),
            Err(stop) => {
                return Run {
                    state,
                    steps,
                    stop,
                    read,
                };
            }
        }
    }
    Run {
        state,
        steps: whole,
        stop: Stop::Ended,
        read,
    }
}

// The run of all that follows the header.
pub(crate) fn played(log: &[u8], s: State) -> Run
    requires { (size_of log.now ≤ length log.now) × (length log.now ≤ max_log) }
    ensures { run_as result ≡ played_of log.now s }
{
    let at = header::size(log);
    let body = log.len() as u32 - at;
    let run = records(log, at, s, body / Record::SIZE);
    run.closed(body % Record::SIZE)
}
