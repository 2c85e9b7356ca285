// The commands of path data, put at the end of a text. A blank stands before each but the first of the text.
ghost use Rattle.std.specs.Prelude.{cond, [], ◌∷◌, ◌++◌, ◌+◌, ◌≤◌, eqb};
ghost use Rattle.decimal.specs.Text.{float_text};
ghost use Rattle.decimal.specs.Put.{Adds};
ghost use Rattle.svg_grammar.specs.Grammar.{close};
ghost use Rattle.svg.specs.Path.{move_to, line_to, curve_to};
ghost use Rattle.svg.specs.Pieces.{glue, PointIn};

use decimal::Text;
use geom::P;

// Puts a letter, after a blank where something stands before it.
fn put_letter(text: &mut Text<'_>, letter: u8)
    ensures text { Adds text.old (cond (eqb text.old.at 0) (letter ∷ []) (32 ∷ letter ∷ [])) text.new }
    ensures room { text.new.at ≤ text.old.at + 2 }
{
    if !text.is_empty() {
        text.put(b' ');
    }
    text.put(letter);
}

// Puts a point's two numbers.
fn put_point(text: &mut Text<'_>, p: P)
    requires { PointIn p }
    ensures text { Adds text.old (float_text p.x ++ 32 ∷ float_text p.y) text.new }
    ensures room { text.new.at ≤ text.old.at + 23 }
{
    text.write_num(p.x);
    text.put(b' ');
    text.write_num(p.y);
}

// Puts a command to a point: its letter and the point.
fn put_command(text: &mut Text<'_>, letter: u8, p: P)
    requires { PointIn p }
    ensures text { Adds text.old (cond (eqb text.old.at 0) (letter ∷ []) (32 ∷ letter ∷ []) ++ (float_text p.x ++ 32 ∷ float_text p.y)) text.new }
    ensures room { text.new.at ≤ text.old.at + 25 }
{
    put_letter(text, letter);
    put_point(text, p);
}

#[tactic(auto, using(crate::proofs::Glues::glue_move))]
pub fn put_move(text: &mut Text<'_>, p: P)
    requires { PointIn p }
    ensures text { Adds text.old (glue text.old.at (move_to p ∷ [])) text.new }
    ensures room { text.new.at ≤ text.old.at + 25 }
{
    put_command(text, b'M', p);
}

#[tactic(auto, using(crate::proofs::Glues::glue_line))]
pub fn put_line(text: &mut Text<'_>, p: P)
    requires { PointIn p }
    ensures text { Adds text.old (glue text.old.at (line_to p ∷ [])) text.new }
    ensures room { text.new.at ≤ text.old.at + 25 }
{
    put_command(text, b'L', p);
}

pub fn put_curve(text: &mut Text<'_>, a: P, b: P, p: P)
    requires { (PointIn a) × (PointIn b) × (PointIn p) }
    ensures text { Adds text.old (glue text.old.at (curve_to a b p ∷ [])) text.new }
    ensures room { text.new.at ≤ text.old.at + 73 }
{
    put_command(text, b'C', a);
    text.put(b' ');
    put_point(text, b);
    text.put(b' ');
    put_point(text, p);
}

#[tactic(auto, using(crate::proofs::Glues::glue_close))]
pub fn put_close(text: &mut Text<'_>)
    ensures text { Adds text.old (glue text.old.at (close ∷ [])) text.new }
    ensures room { text.new.at ≤ text.old.at + 2 }
{
    put_letter(text, b'Z');
}
