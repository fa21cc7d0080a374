//! Laws of reading.
ghost use Rattle.std.specs.Prelude.{◌≡◌, ◌≢◌, List, ℕ, true};
ghost use Rattle.mars_grammar.specs.Testing.{starts};
ghost use Rattle.mars_forms.specs.Table.{forms};
ghost use Rattle.mars_forms.specs.TableTest.{forms_test};
ghost use Rattle.mars_forms.specs.declared.symbol.FormSymbol.{FormSymbol as TheSymbol};
ghost use Rattle.mars_clauses.specs.declared.limits.OverLimit.{OverLimit};
ghost use Rattle.mars_script.specs.declared.script.Input.{Input as TheInput};
ghost use Rattle.mars_read.specs.declared.error.ReadError.{ReadError as TheError};
ghost use Rattle.mars_read.specs.declared.error.ReadError.TheVariants as read_error;
ghost use Rattle.mars_read.specs.Refused.{IsReadAs, IsRefusedAs};
ghost use Rattle.mars_read.specs.ReadInput.{PutsAreSmall, IsReadInput, IsNoInput};

use crate::inputs::InputTold;
use mars_forms::Forms;
use mars_grammar::{Builder, one_refusal, one_value};
use mars_tokens::one_list_of_tokens;

/// A text is read as one value or has one refusal, and never both; out of memory aside.
pub fn one_reading<const TWO: bool, B: Builder<Forms<TWO>>>()
    ensures value { (start : List TheSymbol) (v w x : B.Value) (bytes : List ℕ) → starts (forms TWO) (forms_test TWO) start ≡ true →
        IsReadAs TWO start B.build v bytes w → IsReadAs TWO start B.build v bytes x → w ≡ x }
    ensures either { (start : List TheSymbol) (v w : B.Value) (bytes : List ℕ) (over : B.Limit → OverLimit) (e : TheError) →
        IsReadAs TWO start B.build v bytes w → IsRefusedAs TWO start B.build v bytes over e → e ≡ read_error.NoMemory }
    ensures refusal { (start : List TheSymbol) (v : B.Value) (bytes : List ℕ) (over : B.Limit → OverLimit) (e f : TheError) → starts (forms TWO) (forms_test TWO) start ≡ true →
        e ≢ read_error.NoMemory → f ≢ read_error.NoMemory → IsRefusedAs TWO start B.build v bytes over e → IsRefusedAs TWO start B.build v bytes over f → e ≡ f }
{
    one_list_of_tokens();
    one_value::<Forms<TWO>>();
    one_refusal::<Forms<TWO>, B>();
}

/// A text says one input, or is refused, and never both; out of memory aside.
pub fn one_input()
    ensures input { (bytes : List ℕ) (input other : TheInput) → IsReadInput bytes input → IsReadInput bytes other → input ≡ other }
    ensures either { (bytes : List ℕ) (input : TheInput) (e : TheError) → IsReadInput bytes input → IsNoInput bytes e → e ≡ read_error.NoMemory }
{
    one_reading::<true, InputTold>();
    one_reading::<false, InputTold>();
}

/// The graph of a tree that an input puts has at most a node for each token of the tree, whatever comes before it.
pub fn puts_are_small()
    ensures { PutsAreSmall }
{}
