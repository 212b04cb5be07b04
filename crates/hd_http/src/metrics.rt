//! A library's state in the text format of Prometheus.
ghost use Rattle.std.specs.Prelude.{◌≡◌, ◌++◌, OnOk, decimal, map};
ghost use Rattle.std.specs.List.{flat_map};
ghost use Rattle.hd_http.specs.Metrics.{all_turns_text, commit_text, fraction, gauge_text, gauges, kind_text};
ghost use Rattle.hd_http.specs.Metrics.{kinds, metrics_text, number_text, sample_text, seconds_text};
ghost use Rattle.hd_http.specs.Metrics.{turns_text, well};
ghost use Rattle.hd_http.specs.Metered.{gauge_of, kind_of};

use crate::pieces::write_pieces;
use crate::state::{Health, State, Tally, Turns};
use itoa::Buffer;
use std::alloc::{AllocError, Global};

/// A number that goes up and down, if the library has it.
#[derive(Clone, Copy)]
struct Gauge<'a> {
    name: &'a [u8],
    help: &'a [u8],
    value: Option<u64>,
}

/// The turns of a kind.
#[derive(Clone, Copy)]
struct Kind<'a> {
    name: &'a [u8],
    tally: Tally,
}

/// 1 where a library can do its work, else 0.
fn well(health: Health) -> u64
    ensures { result ≡ well health }
{
    match health {
        Health::Well => 1,
        Health::Shut | Health::Full | Health::Gone => 0,
    }
}

/// Writes a gauge, after what it means and what it is.
#[tactic(auto, unfolding(crate::specs::Metrics::gauge_text))]
fn write_gauge(out: &mut Vec<u8>, name: &[u8], help: &[u8], value: &[u8]) -> Result<(), AllocError>
    ensures { OnOk result (out.new.items ≡ out.old.items ++ gauge_text name.now help.now value.now) }
{
    write_pieces(
        out,
        &[
            b"# HELP ",
            name,
            b" ",
            help,
            b"\n# TYPE ",
            name,
            b" gauge\n",
            name,
            b" ",
            value,
            b"\n",
        ],
    )
}

/// Writes a gauge, if the library has it.
fn write_number(out: &mut Vec<u8>, gauge: &Gauge<'_>) -> Result<(), AllocError>
    ensures { OnOk result (out.new.items ≡ out.old.items ++ number_text (gauge_of gauge.now)) }
{
    let Some(value) = gauge.value else {
        return Ok(());
    };
    let mut buffer = Buffer::new();
    write_gauge(out, gauge.name, gauge.help, buffer.format(value).as_bytes())
}

/// Writes gauges, those that the library has.
fn write_gauges(out: &mut Vec<u8>, gauges: &[Gauge<'_>]) -> Result<(), AllocError>
    ensures { OnOk result (out.new.items ≡ out.old.items ++ flat_map number_text (map gauge_of gauges.now)) }
{
    for gauge in gauges {
        write_number(out, gauge)?;
    }
    Ok(())
}

/// The numbers of a state that go up and down.
#[tactic(auto, unfolding(crate::specs::Metrics::gauges))]
fn gauges_of(state: &State) -> [Gauge<'static>; 7]
    ensures { map gauge_of result ≡ gauges state.now }
{
    [
        Gauge {
            name: b"holddesk_well",
            help: b"1 if the server can do its work, else 0.",
            value: Some(well(state.health)),
        },
        Gauge {
            name: b"holddesk_journal_turns",
            help: b"Turns of the journal; questions count until the next start.",
            value: state.journal.map(|j| j.turns),
        },
        Gauge {
            name: b"holddesk_last_number",
            help: b"Number of the last command.",
            value: state.journal.map(|j| j.last_number),
        },
        Gauge {
            name: b"holddesk_numbers_left",
            help: b"Commands that the journal can still take.",
            value: state.journal.map(|j| j.numbers_left),
        },
        Gauge {
            name: b"holddesk_connections",
            help: b"Open connections of terminals.",
            value: state.connections,
        },
        Gauge {
            name: b"holddesk_workers_busy",
            help: b"Workers that serve a connection.",
            value: state.workers_busy,
        },
        Gauge {
            name: b"holddesk_journal_bytes",
            help: b"Bytes of the journal's file and its log.",
            value: state.journal_bytes,
        },
    ]
}

/// Writes the numbers of a state that go up and down.
fn write_state(out: &mut Vec<u8>, state: &State) -> Result<(), AllocError>
    ensures { OnOk result (out.new.items ≡ out.old.items ++ flat_map number_text (gauges state.now)) }
{
    write_gauges(out, &gauges_of(state))
}

/// The point, and the last six digits of a number.
fn fraction(n: u64) -> [u8; 7]
    ensures { result ≡ fraction n }
{
    [
        b'.',
        b'0' + (n / 100_000 % 10) as u8,
        b'0' + (n / 10_000 % 10) as u8,
        b'0' + (n / 1_000 % 10) as u8,
        b'0' + (n / 100 % 10) as u8,
        b'0' + (n / 10 % 10) as u8,
        b'0' + (n % 10) as u8,
    ]
}

/// Writes the last commit's time, if there was one.
#[tactic(auto, unfolding(crate::specs::Metrics::seconds_text))]
fn write_commit(alloc: Global, out: &mut Vec<u8>, micros: Option<u64>) -> Result<(), AllocError>
    ensures { OnOk result (out.new.items ≡ out.old.items ++ commit_text micros) }
{
    let Some(micros) = micros else {
        return Ok(());
    };
    let mut text = Vec::new(alloc);
    hd_json::write_number(&mut text, micros / 1_000_000)?;
    text.extend_from_slice(&fraction(micros))?;
    write_gauge(
        out,
        b"holddesk_last_commit_seconds",
        b"Seconds that the last commit took.",
        text.as_slice(),
    )
}

/// Writes a line of the turns of a kind that ended in one way: how many they are.
#[tactic(auto, unfolding(crate::specs::Metrics::sample_text))]
fn write_sample(
    out: &mut Vec<u8>,
    kind: &[u8],
    outcome: &[u8],
    value: &[u8],
) -> Result<(), AllocError>
    ensures { OnOk result (out.new.items ≡ out.old.items ++ sample_text kind.now outcome.now value.now) }
{
    write_pieces(
        out,
        &[
            b"holddesk_turns_total{kind=\"",
            kind,
            b"\",outcome=\"",
            outcome,
            b"\"} ",
            value,
            b"\n",
        ],
    )
}

/// Writes how many turns of a kind ended in one way.
fn write_count(out: &mut Vec<u8>, kind: &[u8], outcome: &[u8], n: u64) -> Result<(), AllocError>
    ensures { OnOk result (out.new.items ≡ out.old.items ++ sample_text kind.now outcome.now (decimal n)) }
{
    let mut buffer = Buffer::new();
    write_sample(out, kind, outcome, buffer.format(n).as_bytes())
}

/// Writes how many turns of a kind ended in which way.
#[tactic(auto, unfolding(crate::specs::Metrics::kind_text))]
fn write_kind(out: &mut Vec<u8>, kind: &Kind<'_>) -> Result<(), AllocError>
    ensures { OnOk result (out.new.items ≡ out.old.items ++ kind_text (kind_of kind.now)) }
{
    write_count(out, kind.name, b"done", kind.tally.done)?;
    write_count(out, kind.name, b"refused", kind.tally.refused)?;
    write_count(out, kind.name, b"repeated", kind.tally.repeated)
}

/// Writes how many turns of each kind ended in which way.
fn write_kinds(out: &mut Vec<u8>, kinds: &[Kind<'_>]) -> Result<(), AllocError>
    ensures { OnOk result (out.new.items ≡ out.old.items ++ flat_map kind_text (map kind_of kinds.now)) }
{
    for kind in kinds {
        write_kind(out, kind)?;
    }
    Ok(())
}

/// Writes how many turns of every kind ended in which way.
fn write_each(out: &mut Vec<u8>, turns: &Turns) -> Result<(), AllocError>
    ensures { OnOk result (out.new.items ≡ out.old.items ++ flat_map kind_text (kinds turns.now)) }
{
    let kinds = [
        Kind {
            name: b"checkout",
            tally: turns.checkout,
        },
        Kind {
            name: b"offline_checkout",
            tally: turns.off_line,
        },
        Kind {
            name: b"checkin",
            tally: turns.checkin,
        },
        Kind {
            name: b"renewal",
            tally: turns.renewal,
        },
        Kind {
            name: b"hold",
            tally: turns.add,
        },
        Kind {
            name: b"hold_deletion",
            tally: turns.delete,
        },
        Kind {
            name: b"hold_change",
            tally: turns.change,
        },
        Kind {
            name: b"cancellation",
            tally: turns.cancel,
        },
        Kind {
            name: b"query",
            tally: turns.item,
        },
    ];
    write_kinds(out, &kinds)
}

/// Writes the turns by kind and outcome, after what they mean and what they are.
fn write_all_turns(out: &mut Vec<u8>, turns: &Turns) -> Result<(), AllocError>
    ensures { OnOk result (out.new.items ≡ out.old.items ++ all_turns_text turns.now) }
{
    out.extend_from_slice(
        b"# HELP holddesk_turns_total Turns since the program began, by kind and outcome.\n",
    )?;
    out.extend_from_slice(b"# TYPE holddesk_turns_total counter\n")?;
    write_each(out, turns)?;
    Ok(())
}

/// Writes the turns by kind and outcome, if they are counted.
fn write_turns(out: &mut Vec<u8>, turns: &Option<Turns>) -> Result<(), AllocError>
    ensures { OnOk result (out.new.items ≡ out.old.items ++ turns_text turns.now) }
{
    match turns {
        Some(turns) => write_all_turns(out, turns),
        None => Ok(()),
    }
}

/// Writes a state.
#[tactic(auto, unfolding(crate::specs::Metrics::metrics_text))]
pub(crate) fn write_metrics(
    alloc: Global,
    out: &mut Vec<u8>,
    state: &State,
) -> Result<(), AllocError>
    ensures { OnOk result (out.new.items ≡ out.old.items ++ metrics_text state.now) }
{
    write_state(out, state)?;
    write_commit(alloc, out, state.commit_micros)?;
    write_turns(out, &state.turns)?;
    Ok(())
}
