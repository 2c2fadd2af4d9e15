//! Acts as JSON, and their canonical texts.

ghost use Rattle.std.specs.Prelude.{◌≡◌, IfOk, codes, string_bytes, [], ◌∷◌};
ghost use Rattle.json.specs.Token as token;
ghost use Rattle.serde_json.specs.Data.{string, object, member, no_members};
ghost use Rattle.ee_desk_model.specs.declared.acts.Act.TheVariants as act;
ghost use Rattle.ee_desk_texts.specs.Data.{day_data, list_data, act_data};
ghost use Rattle.ee_desk_texts.specs.Texts.{act_text};
ghost use Rattle.ee_desk_texts.specs.Ranges.{ActFits};
ghost use Rattle.ee_desk_texts.specs.Writing.{Adds};
ghost use Rattle.ee_desk_texts.specs.Inner.Writing.{AddsData};

use crate::invariants::act_fits;
use crate::writing::{
    Row, text_of, write_list_member, write_number_member, write_string, write_string_member,
};
use ee_calculator::Bond;
use ee_desk_model::{Act, RateRow};
use ee_units::{Customer, Day, Serial};
use json::Writer;
use std::alloc::{AllocError, Global};

impl Row for RateRow {
    ghost use Rattle.ee_desk_texts.specs.Data.{rate_row_data};

    ghost row_data = { rate_row_data };

    fn write(&self, alloc: Global, out: &mut Writer) -> Result<(), AllocError> {
        out.begin_object()?;
        if let Some(extension) = self.rates.named_extension() {
            write_string_member(alloc, out, "extension", &extension)?;
        }
        write_string_member(alloc, out, "from", &self.from)?;
        write_string_member(alloc, out, "rate", &self.rates.fixed)?;
        out.end_object()
    }
}

impl Row for Bond {
    ghost use Rattle.ee_desk_texts.specs.Data.{bond_data};

    ghost row_data = { bond_data };

    fn write(&self, alloc: Global, out: &mut Writer) -> Result<(), AllocError> {
        out.begin_object()?;
        if let Some(coowner) = self.coowner {
            write_number_member(out, "coowner", u64::from(coowner.number()))?;
        }
        write_number_member(out, "denom", self.denom.dollars())?;
        write_string_member(alloc, out, "issued", &self.issued)?;
        write_number_member(out, "owner", u64::from(self.owner.number()))?;
        write_string_member(alloc, out, "serial", &self.serial)?;
        out.end_object()
    }
}

impl Row for Serial {
    ghost use Rattle.ee_desk_texts.specs.Data.{serial_data};

    ghost row_data = { serial_data };

    fn write(&self, alloc: Global, out: &mut Writer) -> Result<(), AllocError> {
        write_string(alloc, out, self)
    }
}

fn begin_act(out: &mut Writer, name: &str) -> Result<(), AllocError>
    ensures { Adds result out.old out.new (token.begin_object ∷ token.key (codes "act") ∷ token.string name.now ∷ []) }
{
    out.begin_object()?;
    out.key("act")?;
    out.string(name)
}

// An act that consists of a list, under its own name.
fn write_list_act<R: Row>(
    alloc: Global,
    out: &mut Writer,
    name: &str,
    rows: &[R],
) -> Result<(), AllocError>
    ensures { AddsData result out.old out.new
        (object (member (codes "act") (string name.now) (member name.now (list_data R.row_data rows.now) no_members))) }
{
    begin_act(out, name)?;
    write_list_member(alloc, out, name, rows)?;
    out.end_object()
}

// An act that consists of a day.
fn write_day_act(alloc: Global, out: &mut Writer, name: &str, day: Day) -> Result<(), AllocError>
    ensures { AddsData result out.old out.new
        (object (member (codes "act") (string name.now) (member (codes "day") (day_data day) no_members))) }
{
    begin_act(out, name)?;
    write_string_member(alloc, out, "day", &day)?;
    out.end_object()
}

fn write_redeem(
    alloc: Global,
    out: &mut Writer,
    day: Day,
    payee: Customer,
    serials: &[Serial],
) -> Result<(), AllocError>
    ensures { AddsData result out.old out.new (act_data (act.Redeem day payee serials.now)) }
{
    begin_act(out, "redeem")?;
    write_string_member(alloc, out, "day", &day)?;
    write_number_member(out, "payee", u64::from(payee.number()))?;
    write_list_member(alloc, out, "serials", serials)?;
    out.end_object()
}

fn write_act(alloc: Global, out: &mut Writer, act: &Act) -> Result<(), AllocError>
    ensures { AddsData result out.old out.new (act_data act.now) }
{
    match act {
        Act::AddRates(rows) => write_list_act(alloc, out, "rates", rows.as_slice()),
        Act::AddBonds(bonds) => write_list_act(alloc, out, "bonds", bonds.as_slice()),
        Act::OpenDay(day) => write_day_act(alloc, out, "open", *day),
        Act::Redeem {
            day,
            payee,
            serials,
        } => write_redeem(alloc, out, *day, *payee, serials.as_slice()),
        Act::CloseDay(day) => write_day_act(alloc, out, "close", *day),
    }
}

/// The canonical text of an act: compact JSON, with keys in the order of their bytes. Different acts have
/// different texts (`texts_law`). Each act is in range, by its types.
pub fn canonical(alloc: Global, act: &Act) -> Result<String, AllocError>
    ensures text { IfOk result (λ s. string_bytes s ≡ act_text act.now) }
    ensures fits { ActFits act.now }
{
    act_fits(act);
    let mut out = Writer::new(Vec::new(alloc));
    write_act(alloc, &mut out, act)?;
    Ok(text_of(out))
}
