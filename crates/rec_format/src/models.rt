//! The spelling of variables, rows and models.
use crate::ids::put_text;
use crate::reader::{NoSpelling, Reader};
use crate::spelled::Spelled;
use base_names::{Name, NoMemory, OrMemory, Seq, Tag};
use frac128::Frac;
use model_data::{Direction, Model, Row, Sense, Term, Var, VarKind, is_name, is_tag};

impl Spelled for Name {
    ghost use Rattle.rec_format.specs.Models.{name};

    ghost format = { name };

    fn read_from(reader: &mut Reader) -> Result<Name, OrMemory<NoSpelling>> {
        let bytes = reader.text()?;
        if !is_name(bytes) {
            return Err(OrMemory::Fault(NoSpelling));
        }
        Ok(Name::of(bytes.to_vec(reader.alloc)?))
    }

    fn write_to(&self, out: &mut Vec<u8>) -> Result<(), NoMemory> {
        put_text(out, self.as_bytes())
    }
}

impl Spelled for Tag {
    ghost use Rattle.rec_format.specs.Models.{tag};

    ghost format = { tag };

    fn read_from(reader: &mut Reader) -> Result<Tag, OrMemory<NoSpelling>> {
        let bytes = reader.text()?;
        if !is_tag(bytes) {
            return Err(OrMemory::Fault(NoSpelling));
        }
        Ok(Tag::of(bytes.to_vec(reader.alloc)?))
    }

    fn write_to(&self, out: &mut Vec<u8>) -> Result<(), NoMemory> {
        put_text(out, self.as_bytes())
    }
}

impl Spelled for Term {
    ghost use Rattle.rec_format.specs.Models.{term};

    ghost format = { term };

    fn read_from(reader: &mut Reader) -> Result<Term, OrMemory<NoSpelling>> {
        let var = u32::read_from(reader)?;
        let coef = Frac::read_from(reader)?;
        Ok(Term { var, coef })
    }

    fn write_to(&self, out: &mut Vec<u8>) -> Result<(), NoMemory> {
        self.var.write_to(out)?;
        self.coef.write_to(out)
    }
}

impl Spelled for Var {
    ghost use Rattle.rec_format.specs.Models.{var};

    ghost format = { var };

    fn read_from(reader: &mut Reader) -> Result<Var, OrMemory<NoSpelling>> {
        let name = Name::read_from(reader)?;
        let lower = <Option<Frac>>::read_from(reader)?;
        let upper = <Option<Frac>>::read_from(reader)?;
        let obj = Frac::read_from(reader)?;
        let kind = VarKind::read_from(reader)?;
        let tag = <Option<Tag>>::read_from(reader)?;
        Ok(Var {
            name,
            lower,
            upper,
            obj,
            kind,
            tag,
        })
    }

    fn write_to(&self, out: &mut Vec<u8>) -> Result<(), NoMemory> {
        self.name.write_to(out)?;
        self.lower.write_to(out)?;
        self.upper.write_to(out)?;
        self.obj.write_to(out)?;
        self.kind.write_to(out)?;
        self.tag.write_to(out)
    }
}

impl Spelled for Row {
    ghost use Rattle.rec_format.specs.Models.{row};

    ghost format = { row };

    fn read_from(reader: &mut Reader) -> Result<Row, OrMemory<NoSpelling>> {
        let name = Name::read_from(reader)?;
        let sense = Sense::read_from(reader)?;
        let rhs = Frac::read_from(reader)?;
        let terms = <Seq<Term>>::read_from(reader)?;
        Ok(Row {
            name,
            sense,
            rhs,
            terms,
        })
    }

    fn write_to(&self, out: &mut Vec<u8>) -> Result<(), NoMemory> {
        self.name.write_to(out)?;
        self.sense.write_to(out)?;
        self.rhs.write_to(out)?;
        self.terms.write_to(out)
    }
}

impl Spelled for Model {
    ghost use Rattle.rec_format.specs.Models.{model};

    ghost format = { model };

    fn read_from(reader: &mut Reader) -> Result<Model, OrMemory<NoSpelling>> {
        let direction = Direction::read_from(reader)?;
        let constant = Frac::read_from(reader)?;
        let vars = <Seq<Var>>::read_from(reader)?;
        let rows = <Seq<Row>>::read_from(reader)?;
        Ok(Model {
            direction,
            constant,
            vars,
            rows,
        })
    }

    fn write_to(&self, out: &mut Vec<u8>) -> Result<(), NoMemory> {
        self.direction.write_to(out)?;
        self.constant.write_to(out)?;
        self.vars.write_to(out)?;
        self.rows.write_to(out)
    }
}
