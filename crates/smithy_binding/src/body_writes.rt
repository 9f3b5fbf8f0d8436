// The writes that a body is made of (Smithy, HTTP protocol bindings).
ghost use Rattle.std.specs.Prelude.{OnOk};
ghost use Rattle.smithy_binding.specs.Words.{Table, binding_shown};
ghost use Rattle.smithy_binding.specs.views.KeptWrites.{IsEmpty, Keeps, KeepsDefined};

use crate::direction::DirectedSchema;
use smithy_schema::{Binding, SchemaRef};
use smithy_serde::ShapeValue;
use smithy_types::OutOfMemory;
use std::alloc::Global;

/// A write with its member.
#[derive(Clone, Copy, Drop)]
pub struct BodyWrite<'t, 'w> {
    pub member: SchemaRef<'t>,
    pub value: &'w ShapeValue,
}

/// The writes that a body is made of.
#[derive(Drop)]
pub struct BodyWrites<'t, 'w> {
    /// Those of unbound members, in order.
    pub unbound: Vec<BodyWrite<'t, 'w>>,
    /// The first of the payload.
    pub payload: Option<BodyWrite<'t, 'w>>,
}

impl<'t, 'w> BodyWrites<'t, 'w> {
    /// None yet. Takes no memory.
    pub fn new(alloc: Global) -> BodyWrites<'t, 'w>
        ensures { IsEmpty result }
    {
        BodyWrites {
            unbound: Vec::new(alloc),
            payload: None,
        }
    }

    /// Keeps a write of a member with this binding: each of an unbound member, and the first of the payload. Takes memory.
    #[inline(always)]
    pub fn keep(
        &mut self,
        member: DirectedSchema<'t>,
        binding: Binding<'_>,
        value: &'w ShapeValue,
    ) -> Result<(), OutOfMemory>
        ensures kept { OnOk result
            (Keeps (binding_shown binding.entry) member.entry value.now self.old self.new) }
        ensures defined { OnOk result ((t : Table) → KeepsDefined t value.now self.old self.new) }
    {
        let member = member.schema;
        match binding {
            Binding::Body => {
                self.unbound.push(BodyWrite { member, value })?;
                Ok(())
            }
            Binding::Payload => {
                self.payload = self.payload.or(Some(BodyWrite { member, value }));
                Ok(())
            }
            _ => Ok(()),
        }
    }
}
