// What became of the call: of its packets, and a table of its units.
use crate::packet::Counts;
use crate::plan::ROUNDS;
use crate::tally::Account;
use crate::way::Call;
use calls::Refusal;
use std::fmt;
use std::fmt::{Display, Formatter};

// What became of the packets, a line for each way.
impl Display for Counts {
    fn fmt<W: fmt::Write>(&self, f: &mut Formatter<W>) -> fmt::Result {
        writeln!(f, "{:>7}  came with an undamaged header", self.undamaged)?;
        writeln!(
            f,
            "{:>7}  were read through wrong bits of the header, at most three",
            self.through_wrong_bits
        )?;
        writeln!(f, "{:>7}  were read as another packet", self.as_another)?;
        writeln!(
            f,
            "{:>7}  were refused {}: no header within three bits of what came",
            self.bad_header,
            Refusal::BadHeader
        )?;
        writeln!(
            f,
            "{:>7}  were refused {}: no closing flag where the header says",
            self.bad_form,
            Refusal::BadForm
        )?;
        writeln!(
            f,
            "{:>7}  were refused {}: a length of 255",
            self.bad_length,
            Refusal::BadLength
        )
    }
}

// A channel's line of the table.
impl Display for Account {
    fn fmt<W: fmt::Write>(&self, f: &mut Formatter<W>) -> fmt::Result {
        let t = &self.tally;
        write!(f, "{:>7}  {:<19}", self.plan.channel.0, self.plan.layer)?;
        write!(f, "{:>6}{:>7}{:>11}", t.units, t.clean, t.corrected)?;
        write!(
            f,
            "{:>14}{:>14}{:>11}",
            t.out_of_reach, t.check_failed, t.unchecked
        )?;
        write!(f, "{:>17}", t.repaired)
    }
}

impl Call {
    // What was sent, and what the link did to it.
    fn head<W: fmt::Write>(&self, f: &mut Formatter<W>) -> fmt::Result {
        writeln!(
            f,
            "A call: {ROUNDS} units on each channel, in {} packets; {} octets of payload on the way, {} of them damaged.",
            self.packets.sent, self.link.octets, self.link.damaged
        )?;
        writeln!(f, "Flags came intact, headers with some bits wrong.\n")
    }

    // The table, a line for each channel.
    fn rows<W: fmt::Write>(&self, f: &mut Formatter<W>) -> fmt::Result {
        writeln!(
            f,
            "channel  layer               units  clean  corrected  out of reach  check failed  unchecked  octets repaired"
        )?;
        for account in &self.far.accounts {
            writeln!(f, "{account}")?;
        }
        Ok(())
    }

    // What the refused packets did to the units.
    fn lost<W: fmt::Write>(&self, f: &mut Formatter<W>) -> fmt::Result {
        writeln!(
            f,
            "The {} refused packets were lost with what they carried. Where one carried the end of a unit, the channel has",
            self.packets.refused()
        )?;
        writeln!(
            f,
            "a unit fewer, and what had come of that unit was held for the next."
        )
    }

    // How many units with a green badge differ from what was sent.
    fn wrongly_green(&self) -> usize {
        self.far
            .accounts
            .iter()
            .fold(0, |n: usize, a| n.saturating_add(a.tally.wrongly_green))
    }
}

impl Display for Call {
    fn fmt<W: fmt::Write>(&self, f: &mut Formatter<W>) -> fmt::Result {
        self.head(f)?;
        writeln!(f, "packets\n{}", self.packets)?;
        self.rows(f)?;
        writeln!(f)?;
        self.lost(f)?;
        write!(
            f,
            "\nUnits with a green badge (clean or corrected) that differ from what was sent: "
        )?;
        match self.wrongly_green() {
            0 => write!(f, "none."),
            n => write!(f, "{n}."),
        }
    }
}
