//! A state that is one of three colours, with its changes and questions.

ghost use Rattle.std.specs.Prelude.{None, Some, true, false, refl, if◌then◌else◌};
ghost use Rattle.pmf_runs.specs.declared.tests.colour.Colour.TheVariants.{Red, Green, Blue};

use crate::state::{Change, Effect, Key, State, Test};

#[derive(Clone, Copy, Debug, PartialEq, Eq)]
pub(super) enum Colour {
    Red,
    Green,
    Blue,
}

/// Which colours there may be.
#[derive(Clone, Copy, Debug, PartialEq, Eq)]
pub(super) struct Colours {
    red: bool,
    green: bool,
    blue: bool,
}

/// Blue is unsettled. The flag is whether a state is blue, or red.
impl State for Colour {
    type Summary = Colours;

    ghost covers = { λ colours. elim [ Red ↦ colours.red | Green ↦ colours.green | Blue ↦ colours.blue ] };

    ghost unsettled = { elim [ Red ↦ false | Green ↦ false | Blue ↦ true ] };

    ghost flagged = { λ flag s. if flag then Blue else Red };

    ghost forgets = { λ first last s. refl };

    fn summary(&self) -> Colours {
        match self {
            Colour::Red => Colours {
                red: true,
                green: false,
                blue: false,
            },
            Colour::Green => Colours {
                red: false,
                green: true,
                blue: false,
            },
            Colour::Blue => Colours {
                red: false,
                green: false,
                blue: true,
            },
        }
    }

    fn joined(one: Colours, other: Colours) -> Colours {
        Colours {
            red: one.red || other.red,
            green: one.green || other.green,
            blue: one.blue || other.blue,
        }
    }

    fn is_unsettled(&self) -> bool {
        match self {
            Colour::Red => false,
            Colour::Green => false,
            Colour::Blue => true,
        }
    }

    fn may_be_unsettled(summary: Colours) -> bool {
        summary.blue
    }

    fn settled(summary: Colours) -> Colours {
        Colours {
            red: summary.red,
            green: summary.green,
            blue: false,
        }
    }

    fn is_same(&self, other: Colour) -> bool {
        *self == other
    }

    fn are_alike(one: Colours, other: Colours) -> bool {
        one == other
    }

    fn flagged(self, flag: bool) -> Colour {
        if flag { Colour::Blue } else { Colour::Red }
    }

    fn summary_flagged(_colours: Colours, flag: bool) -> Colours {
        Colours {
            red: !flag,
            green: false,
            blue: flag,
        }
    }
}

/// Gives one colour to all.
#[derive(Clone, Copy, Debug)]
pub(super) struct To(pub(super) Colour);

impl Change<Colour> for To {
    ghost changed = { λ to _colour. to.0 };

    fn changed(&self, _state: Colour) -> Colour {
        self.0
    }

    fn may_alter(&self, colours: Colours) -> bool {
        match self.0 {
            Colour::Red => colours.green || colours.blue,
            Colour::Green => colours.red || colours.blue,
            Colour::Blue => colours.red || colours.green,
        }
    }

    fn widened(&self, colours: Colours) -> Colours {
        Colour::joined(colours, self.0.summary())
    }

    fn effect(&self, _colours: Colours, state: Colour) -> Effect {
        match state {
            Colour::Red => Effect::Widens,
            Colour::Green => Effect::Narrows,
            Colour::Blue => Effect::Settles,
        }
    }
}

/// Sets the flag of all.
#[derive(Clone, Copy, Debug)]
pub(super) struct Set(pub(super) bool);

impl Change<Colour> for Set {
    ghost changed = { λ set _colour. if set.0 then Blue else Red };

    fn changed(&self, state: Colour) -> Colour {
        state.flagged(self.0)
    }

    fn may_alter(&self, colours: Colours) -> bool {
        let other = if self.0 { colours.red } else { colours.blue };
        colours.green || other
    }

    fn widened(&self, colours: Colours) -> Colours {
        Colour::joined(colours, Colour::summary_flagged(colours, self.0))
    }

    fn effect(&self, _colours: Colours, _state: Colour) -> Effect {
        Effect::Remakes
    }

    fn flag(&self) -> Option<bool> {
        Some(self.0)
    }
}

/// Red to green, green to blue, blue to red.
#[derive(Clone, Copy, Debug)]
pub(super) struct Next;

impl Change<Colour> for Next {
    ghost changed = { λ _next. elim [ Red ↦ Green | Green ↦ Blue | Blue ↦ Red ] };

    fn changed(&self, state: Colour) -> Colour {
        match state {
            Colour::Red => Colour::Green,
            Colour::Green => Colour::Blue,
            Colour::Blue => Colour::Red,
        }
    }

    fn may_alter(&self, colours: Colours) -> bool {
        colours.red || colours.green || colours.blue
    }

    fn widened(&self, colours: Colours) -> Colours {
        Colours {
            red: colours.red || colours.blue,
            green: colours.green || colours.red,
            blue: colours.blue || colours.green,
        }
    }

    fn effect(&self, _colours: Colours, _state: Colour) -> Effect {
        Effect::Narrows
    }
}

/// Whether it is this colour.
#[derive(Clone, Copy, Debug)]
pub(super) struct Is(pub(super) Colour);

impl Test<Colour> for Is {
    ghost passes = { λ is colour. elim is.0 [ Red ↦ elim colour [ Red ↦ true | Green ↦ false | Blue ↦ false ] | Green ↦ elim colour [ Red ↦ false | Green ↦ true | Blue ↦ false ] | Blue ↦ elim colour [ Red ↦ false | Green ↦ false | Blue ↦ true ] ] };

    fn passes(&self, state: Colour) -> bool {
        match self.0 {
            Colour::Red => match state {
                Colour::Red => true,
                Colour::Green => false,
                Colour::Blue => false,
            },
            Colour::Green => match state {
                Colour::Red => false,
                Colour::Green => true,
                Colour::Blue => false,
            },
            Colour::Blue => match state {
                Colour::Red => false,
                Colour::Green => false,
                Colour::Blue => true,
            },
        }
    }

    fn may_pass(&self, colours: Colours) -> bool {
        match self.0 {
            Colour::Red => colours.red,
            Colour::Green => colours.green,
            Colour::Blue => colours.blue,
        }
    }
}

/// Green is 5, blue is 3, and red has no number.
#[derive(Clone, Copy, Debug)]
pub(super) struct Number;

impl Key<Colour> for Number {
    ghost key = { λ _number. elim [ Red ↦ None | Green ↦ Some 5 | Blue ↦ Some 3 ] };

    fn key(&self, state: Colour) -> Option<u32> {
        match state {
            Colour::Red => None,
            Colour::Green => Some(5),
            Colour::Blue => Some(3),
        }
    }

    fn may_lower(&self, colours: Colours, least: Option<u32>) -> bool {
        match least {
            None => colours.green || colours.blue,
            Some(so_far) => (colours.green && so_far > 5) || (colours.blue && so_far > 3),
        }
    }

    fn bound(&self, colours: Colours) -> Option<u32> {
        if colours.blue {
            Some(3)
        } else if colours.green {
            Some(5)
        } else {
            None
        }
    }
}
