//! The laws of the reader.

ghost use Rattle.expression_reader.specs.Laws.{
  ReadsEach,
  ReadsOnly,
  ReadsFronts,
  StopsRightly,
  NamesGoOn,
  NamesStop,
  WaitsOn,
  SlotsKeepUp,
  KeepsBodies,
  TextsGoOn,
  RolesGoOn,
  RolesAreSettled,
  EndsOnce,
  EndsAtSemicolon,
};

/// A law: the reader reads exactly the expressions, as what they stand for.
pub fn reads_exactly()
    ensures each { ReadsEach }
    ensures only { ReadsOnly }
    ensures once { EndsOnce }
    ensures last { EndsAtSemicolon }
{}

/// A law: what was read begins a text, in the roles that were told, and no text goes on where the reader can't.
pub fn reads_fronts()
    ensures begins { ReadsFronts }
    ensures stuck { StopsRightly }
    ensures names { NamesGoOn }
    ensures no_names { NamesStop }
{}

/// A law: what waits behind a step, and that slots keep up with the nodes that are counted.
pub fn counts_each()
    ensures waiting { WaitsOn }
    ensures slots { SlotsKeepUp }
{}

/// A law: an expression that breaks no rule and no limit is one that a project keeps as a body.
pub fn keeps_bodies()
    ensures { KeepsBodies }
{}

/// A law: an expression's text and its roles stand before others in a longer text.
pub fn stands_before()
    ensures text { TextsGoOn }
    ensures roles { RolesGoOn }
    ensures settled { RolesAreSettled }
{}
