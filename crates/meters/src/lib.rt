// Injections from the meter registers of one quarter hour.
#![tactic(auto)]

ghost use Rattle.std.specs.Prelude.{◌≡◌, ◌<◌};
ghost use Rattle.rows.specs.Row.{headed};
ghost use Rattle.meters.specs.Registers.{registers, buses, shape, imported, exported};
ghost use Rattle.meters.specs.Inside.{read, Even, Ready, totals_of, with_supply};
ghost use Rattle.meters.specs.Promise.{Metered};

use answer::{Answer, Refusal};
use quantity::{advanced, difference};

// The readings at the start and the end of the quarter hour, a list each, and which bus is the supply.
#[derive(Clone, Copy)]
struct Readings<'a> {
    import_start: &'a [u32],
    import_end: &'a [u32],
    export_start: &'a [u32],
    export_end: &'a [u32],
    supply: usize,
}

// A quarter hour's kW through a bus, or through all but the supply together: out of the network and into it.
#[derive(Clone, Copy)]
struct Passed {
    imported: u32,
    exported: u32,
}

impl Readings<'_> {
    // Refusal 13: lists of one length from 1 to 128, and room for as many injections.
    fn shape(self, room: usize) -> Answer
        ensures { result ≡ shape (read self.entry) room }
    {
        let n = self.import_start.len();
        if self.import_end.len() != n
            || self.export_start.len() != n
            || self.export_end.len() != n
        {
            return Err(Refusal::ListsUneven);
        }
        if !(1..=128).contains(&n) || room < n {
            return Err(Refusal::ListsUneven);
        }
        Ok(())
    }

    fn advances(self, i: usize) -> Passed
        requires { Even (read self) × (i < buses (read self)) }
        ensures { (result.imported ≡ imported (read self.entry) i) × (result.exported ≡ exported (read self.entry) i) }
    {
        Passed {
            imported: advanced(self.import_start[i], self.import_end[i]),
            exported: advanced(self.export_start[i], self.export_end[i]),
        }
    }

    // What all buses but the supply import and export together, unless an advance among them is too large to be one.
    fn totals(self) -> Option<Passed>
        requires { Even (read self) }
        ensures { result ≡ totals_of (read self.entry) }
    {
        let mut imported: u32 = 0;
        let mut exported: u32 = 0;
        let supply = self.supply;
        for i in 0..self.import_start.len() {
            if i != supply {
                let a = self.advances(i);
                if 1000000 < a.imported || 1000000 < a.exported {
                    return None;
                }
                imported += a.imported;
                exported += a.exported;
            }
        }
        Some(Passed { imported, exported })
    }

    // The injections, with the supply's own, which no reading gives.
    fn fill(self, own: i32, out: &mut [i32])
        requires { Ready (read self) out.old }
        ensures { out.new ≡ headed (buses (read self.entry)) (with_supply (read self.entry) own) out.old }
    {
        let n = self.import_start.len();
        for i in 0..n {
            out[i] = if i == self.supply {
                own
            } else {
                let a = self.advances(i);
                difference(a.exported, a.imported)
            };
        }
    }
}

pub fn injections(
    import_start: &[u32],
    import_end: &[u32],
    export_start: &[u32],
    export_end: &[u32],
    supply: usize,
    out: &mut [i32],
) -> Answer
    ensures { Metered (registers import_start.now import_end.now export_start.now export_end.now supply) out.old out.new result }
{
    let readings = Readings {
        import_start,
        import_end,
        export_start,
        export_end,
        supply,
    };
    readings.shape(out.len())?;
    if import_start.len() <= supply {
        return Err(Refusal::NoSuchSupply);
    }
    let Some(Passed { imported, exported }) = readings.totals() else {
        return Err(Refusal::AdvanceTooFar);
    };
    if 1000000 < quantity::apart(imported, exported) {
        return Err(Refusal::SupplyOutside);
    }
    readings.fill(difference(imported, exported), out);
    Ok(())
}
