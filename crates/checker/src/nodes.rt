// The node records, and rows 10 to 16.
ghost use Rattle.std.specs.Prelude.{◌≡◌, [], OnOk};
ghost use Rattle.program.specs.Decode.{node_decoded};
ghost use Rattle.program.specs.Program.{no_node};
ghost use Rattle.typing.specs.Faults.{known, typed_node, record_fault};
ghost use Rattle.typing.specs.First.{first};
ghost use Rattle.tables.specs.View.{view};
ghost use Rattle.checker.specs.Files.{variables_of, procedures_of, nodes_of, fault_of_node};
ghost use Rattle.checker.specs.Records.{checked, Holds};

use crate::bodies::next_procedure;
use crate::check::Check;
use crate::site::Site;
use levels::Levels;
use program::decode::decode_node;
use program::fields::NodeFields;
use program::refusal::Refusal;
use tables::tables::Tables;
use typing::classes::TypedNode;

impl<L: Levels> Site<'_, L> {
    fn check_node(&self, fields: NodeFields) -> Result<TypedNode, Refusal>
        ensures { result ≡ checked (typed_node L.Levels.rules (view self.now.tables.now) self.now.procedure (known no_node (node_decoded fields))) (record_fault L.Levels.rules (view self.now.tables.now) self.now.place self.now.procedure (node_decoded fields)) }
    {
        let node = decode_node(fields).ok_or(Refusal::Record(self.place))?;
        self.try_rows(node)?;
        Ok(TypedNode {
            node,
            procedure: self.procedure,
            class: self.class_of(node),
        })
    }
}

impl<L: Levels> Check<'_, '_, L> {
    pub(crate) fn check_nodes(&self, tables: &mut Tables) -> Result<(), Refusal>
        requires { Holds tables.old (variables_of self.now.parts) (procedures_of self.now.parts) [] }
        ensures value { result ≡ checked tt (first (fault_of_node L.Levels.rules self.now.parts) self.now.parts.layout.nodes) }
        ensures filled { OnOk result (Holds tables.new (variables_of self.now.parts) (procedures_of self.now.parts) (nodes_of L.Levels.rules self.now.parts)) }
    {
        let mut procedure = 0;
        for (place, fields) in self.parts.nodes().enumerate() {
            let place = place as u16;
            let site = Site {
                levels: self.levels,
                tables,
                procedure,
                place,
            };
            let node = site.check_node(fields)?;
            tables.nodes.push_reserved(node);
            procedure = next_procedure(tables, procedure, place);
        }
        Ok(())
    }
}
