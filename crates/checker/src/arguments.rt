// The arguments of a call, tested against the parameters of the procedure that is called.
ghost use Rattle.std.specs.Prelude.{◌≡◌};
ghost use Rattle.typing.specs.Environment.{procedure_at};
ghost use Rattle.typing.specs.Rows.{ArgumentTest, argument_at, argument_fits, arguments_fit, call_fits};
ghost use Rattle.tables.specs.View.{view};
ghost use Rattle.checker.specs.Arguments.{Computes};

use crate::site::Site;
use levels::Levels;
use program::records::{Node, Procedure};

impl<L: Levels> Site<'_, L> {
    // The expression of an argument, and the argument after it.
    fn argument(&self, number: Option<u16>) -> Option<(u16, Option<u16>)>
        ensures { result ≡ argument_at (view self.now.tables.now) number }
    {
        match self.tables.node(number?)?.node {
            Node::Argument { value, next } => Some((value, next)),
            _ => None,
        }
    }

    // Whether there are as many arguments, from the first on, as parameters, and each fits the parameter of its number.
    fn arguments_fit<F: Fn(usize, u16) -> bool>(
        &self,
        called: Procedure,
        first: Option<u16>,
        fits: F,
    ) -> bool
        requires { F.IsAlwaysCallable fits }
        ensures { (t : ArgumentTest) → Computes (F.post fits) (argument_fits L.Levels.rules (view self.now.tables.now) t) → result ≡ arguments_fit L.Levels.rules (view self.now.tables.now) t called.parameters called.first_parameter first }
    {
        let mut next = first;
        let first_parameter = called.first_parameter as usize;
        for parameter in first_parameter..first_parameter + called.parameters as usize {
            let Some((value, after)) = self.argument(next) else {
                return false;
            };
            if !fits(parameter, value) {
                return false;
            }
            next = after;
        }
        next.is_none()
    }

    pub(crate) fn call_fits<F: Fn(usize, u16) -> bool>(
        &self,
        procedure: u16,
        first: Option<u16>,
        fits: F,
    ) -> bool
        requires { F.IsAlwaysCallable fits }
        ensures { (t : ArgumentTest) → Computes (F.post fits) (argument_fits L.Levels.rules (view self.now.tables.now) t) → result ≡ call_fits L.Levels.rules (view self.now.tables.now) t (procedure_at (view self.now.tables.now) procedure) first }
    {
        self.tables
            .procedure(procedure)
            .is_some_and(|called| self.arguments_fit(called, first, fits))
    }
}
