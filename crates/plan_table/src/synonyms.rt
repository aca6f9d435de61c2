//! Words for kinds of columns.

ghost use Rattle.std.specs.Prelude.{◌≡◌, map};
ghost use Rattle.plan_table.specs.Synonyms as spec;

use crate::cells::same;
use crate::durations::is_among;
use crate::header::Column;

/// A word for a kind of column, in lower case.
#[derive(Clone, Copy)]
pub struct Synonym {
    pub kind: Column,
    pub word: &'static [u8],
}

const SYNONYMS: [Synonym; 34] = [
    Synonym {
        kind: Column::Duration,
        word: b"days",
    },
    Synonym {
        kind: Column::Duration,
        word: b"work days",
    },
    Synonym {
        kind: Column::Duration,
        word: b"dauer",
    },
    Synonym {
        kind: Column::Duration,
        word: b"dur\xc3\xa9e",
    },
    Synonym {
        kind: Column::Duration,
        word: b"duree",
    },
    Synonym {
        kind: Column::Duration,
        word: b"duraci\xc3\xb3n",
    },
    Synonym {
        kind: Column::Duration,
        word: b"duracion",
    },
    Synonym {
        kind: Column::Id,
        word: b"nr",
    },
    Synonym {
        kind: Column::Id,
        word: b"nr.",
    },
    Synonym {
        kind: Column::Id,
        word: b"no",
    },
    Synonym {
        kind: Column::Id,
        word: b"no.",
    },
    Synonym {
        kind: Column::Id,
        word: b"number",
    },
    Synonym {
        kind: Column::Id,
        word: b"activity id",
    },
    Synonym {
        kind: Column::Id,
        word: b"task id",
    },
    Synonym {
        kind: Column::Name,
        word: b"task name",
    },
    Synonym {
        kind: Column::Name,
        word: b"activity",
    },
    Synonym {
        kind: Column::Name,
        word: b"name der aufgabe",
    },
    Synonym {
        kind: Column::Name,
        word: b"vorgangsname",
    },
    Synonym {
        kind: Column::Name,
        word: b"vorgang",
    },
    Synonym {
        kind: Column::Name,
        word: b"bezeichnung",
    },
    Synonym {
        kind: Column::Name,
        word: b"nom",
    },
    Synonym {
        kind: Column::Name,
        word: b"nom de la t\xc3\xa2che",
    },
    Synonym {
        kind: Column::Name,
        word: b"t\xc3\xa2che",
    },
    Synonym {
        kind: Column::Name,
        word: b"nombre",
    },
    Synonym {
        kind: Column::Name,
        word: b"nombre de tarea",
    },
    Synonym {
        kind: Column::Name,
        word: b"tarea",
    },
    Synonym {
        kind: Column::Predecessors,
        word: b"predecessor",
    },
    Synonym {
        kind: Column::Predecessors,
        word: b"depends",
    },
    Synonym {
        kind: Column::Predecessors,
        word: b"dependencies",
    },
    Synonym {
        kind: Column::Predecessors,
        word: b"vorg\xc3\xa4nger",
    },
    Synonym {
        kind: Column::Predecessors,
        word: b"vorgaenger",
    },
    Synonym {
        kind: Column::Predecessors,
        word: b"pr\xc3\xa9d\xc3\xa9cesseurs",
    },
    Synonym {
        kind: Column::Predecessors,
        word: b"predecesseurs",
    },
    Synonym {
        kind: Column::Predecessors,
        word: b"predecesoras",
    },
];

// The kind of the first of some synonyms with this word.
fn kind_in(synonyms: &[Synonym], key: &[u8]) -> Option<Column>
    ensures { result ≡ spec.kind_in key.now (map spec.synonym_of synonyms.now) }
{
    for synonym in synonyms {
        if same(synonym.word, key) {
            return Some(synonym.kind);
        }
    }
    None
}

/// The kind of column that a header in lower case is a synonym for.
#[tactic(auto, unfolding(crate::specs::Synonyms::synonym_kind))]
pub fn synonym_kind(key: &[u8]) -> Option<Column>
    ensures { result ≡ spec.synonym_kind key.now }
{
    kind_in(&SYNONYMS, key)
}

/// Words for columns that a plan doesn't use, in English, German, French and Spanish.
const NOTE_WORDS: [&[u8]; 51] = [
    b"note",
    b"notes",
    b"remark",
    b"remarks",
    b"comment",
    b"comments",
    b"description",
    b"details",
    b"status",
    b"priority",
    b"start",
    b"finish",
    b"start date",
    b"finish date",
    b"begin date",
    b"end date",
    b"due date",
    b"completion",
    b"% complete",
    b"cost",
    b"coordinator",
    b"responsible",
    b"owner",
    b"assignee",
    b"web link",
    b"bemerkung",
    b"bemerkungen",
    b"notiz",
    b"notizen",
    b"kommentar",
    b"kommentare",
    b"beschreibung",
    b"anfang",
    b"ende",
    b"kosten",
    b"verantwortlich",
    b"remarque",
    b"remarques",
    b"commentaire",
    b"commentaires",
    b"d\xc3\xa9but",
    b"fin",
    b"co\xc3\xbbt",
    b"responsable",
    b"nota",
    b"notas",
    b"comentario",
    b"comentarios",
    b"descripci\xc3\xb3n",
    b"inicio",
    b"coste",
];

/// Whether a header in lower case is a word for a column that a plan doesn't use.
pub fn is_note_word(key: &[u8]) -> bool
    ensures { result ≡ spec.is_note_word key.now }
{
    is_among(&NOTE_WORDS, key)
}

/// Words for a column of successors, which a list doesn't have.
const SUCCESSOR_WORDS: [&[u8]; 4] = [b"successors", b"nachfolger", b"successeurs", b"sucesoras"];

/// Whether a header in lower case is a word for a column of successors.
pub fn is_successor_word(key: &[u8]) -> bool
    ensures { result ≡ spec.is_successor_word key.now }
{
    is_among(&SUCCESSOR_WORDS, key)
}

/// Words for the id of the row of the capacities, in English, German, French and Spanish.
const CAPACITY_WORDS: [&[u8]; 6] = [
    b"capacity",
    b"kapazit\xc3\xa4t",
    b"kapazitaet",
    b"capacit\xc3\xa9",
    b"capacite",
    b"capacidad",
];

/// Whether an id is a word for the row of the capacities.
pub fn is_capacity_word(id: &[u8]) -> bool
    ensures { result ≡ spec.is_capacity_word id.now }
{
    is_among(&CAPACITY_WORDS, id)
}
