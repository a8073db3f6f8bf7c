//! The normal form of an equation, document 02's #102: so that whoever goes through a job's equations sees only those that join two
//! variables and those on one.

ghost use Rattle.std.specs.Prelude.{◌≡◌};
ghost use Rattle.jobs.specs.NormalForm.{home, is_binary, normal};
ghost use Rattle.jobs.specs.ReasonTable.{Coefficients};

use crate::Equation;

impl Equation {
    /// Does it join two variables? They differ, and neither coefficient is 0.
    #[tactic(auto, unfolding(crate::specs::NormalForm::is_binary))]
    pub fn is_binary(self) -> bool
        ensures { result ≡ is_binary self }
    {
        self.left != self.right && self.a != 0 && self.b != 0
    }

    // The variable whose group it belongs to: one with a coefficient that is not 0, or the left one.
    #[tactic(auto, unfolding(crate::specs::NormalForm::home))]
    fn home(self) -> usize
        ensures { result ≡ home self }
    {
        if self.a == 0 && self.b != 0 {
            self.right
        } else {
            self.left
        }
    }

    /// In normal form: as it stands where it is binary, and else with its home on both sides and the sum of its coefficients there.
    #[tactic(auto, unfolding(crate::specs::NormalForm::normal))]
    pub fn normal(self) -> Equation
        requires { Coefficients self }
        ensures { result ≡ normal self }
    {
        if self.is_binary() {
            return self;
        }
        let home = self.home();
        Equation {
            left: home,
            right: home,
            a: self.a + self.b,
            b: 0,
            ..self
        }
    }
}
