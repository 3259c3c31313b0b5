//! Laws of elements from files. Each is a function that does nothing, and its contract is the law.

ghost use Rattle.std.specs.Prelude.{◌≡◌, ◌++◌, List, [], ℕ};
ghost use Rattle.ipfix_wire.specs.declared.specifier.ElementId.{ElementId};
ghost use Rattle.ipfix_elements.specs.Elements.{kind_of};
ghost use Rattle.ipfix_elements.specs.Names.{name_text, element_named};
ghost use Rattle.element_registry.specs.Laws.{KeepsBuiltIn, ReadsBack, SayTheSame};
ghost use Rattle.element_registry.specs.Registries.{Known, IsRegistry, element_kind, element_name, element_by_name};
ghost use Rattle.element_registry.specs.declared.kind.ElementKind.TheVariants.{Plain};

/// Without files each element has the kind and the name that it has built in, and each text names
/// what it names built in.
pub fn no_files()
    ensures kind { (e : ElementId) → element_kind [] e ≡ Plain (kind_of e) }
    ensures name { (e : ElementId) → element_name [] e ≡ name_text e }
    ensures named { (t : List ℕ) → element_by_name [] t ≡ element_named t }
{}

/// Files change nothing of the built-in elements, nor of what is named without files.
pub fn built_in_kept()
    ensures { (known : List Known) → KeepsBuiltIn known }
{}

/// What is written for an element is read as that element by the same files, a text is read as
/// the element of which it is a name, and no two elements are written alike.
pub fn written_read()
    ensures { (known : List Known) → IsRegistry known → ReadsBack known }
{}

/// The order of files makes no difference.
pub fn any_order()
    ensures same { (a b : List Known) → IsRegistry (a ++ b) → SayTheSame (a ++ b) (b ++ a) }
    ensures registry { (a b : List Known) → IsRegistry (a ++ b) → IsRegistry (b ++ a) }
{}
