// A header with forms that the sample does not have.

/// Numbers of the innermost, the next and the outermost structure that choose members, bit-fields among them; unions in unions; arrays of
/// structures, of pointers and of both; lengths and amounts that are computed; and roots with lengths.
pub const HEADER: &str = r#"
struct GTY(()) item { int n; };

struct GTY(()) base { short kind; struct item *p; };

struct GTY(()) pair {
  struct base both[2];
  char *texts[2][2];
};

union GTY(()) choice {
  long GTY((tag ("0"))) number;
  struct item *GTY((tag ("1"))) one;
  struct base GTY((tag ("2"))) held[2];
  char *GTY((default)) text;
};

struct GTY(()) inner {
  char deep;
  unsigned low : 2;
  int high : 3;
  union choice GTY((desc ("%1.low"))) near;
  union choice GTY((desc ("%0.deep + %1.high"))) far;
};

union GTY((desc ("%1.which"))) middle {
  struct item *GTY((tag ("0"))) ones[2];
  struct inner GTY((tag ("1"))) inner;
  struct inner GTY((tag ("2"))) more[2];
};

struct GTY(()) flags {
  unsigned which : 2;
  int deep : 4;
  union middle m;
  struct item *last;
};

struct GTY(()) table {
  int rows;
  int columns;
  struct item *GTY((length ("%h.rows * %h.columns"))) cells[1];
};

struct GTY(()) pages {
  unsigned char n;
  struct pair GTY((length ("%h.n + 1"))) pairs[1];
};

struct GTY(()) lists {
  short n;
  struct item *GTY((length ("%h.n > 1 ? 3 : 1"))) some;
  struct item **GTY((length ("2"))) both;
  char *GTY((string_length ("%h.n"))) counted;
  char *text;
  void *GTY((atomic)) bytes;
  struct base *base;
};

struct GTY(()) shelf {
  long deep;
  struct lists lists[3];
  struct flags flags;
};

static GTY(()) int count;
static GTY((length ("count"))) struct item *many;
static GTY((length ("count - 1"))) struct item **pointers;
static GTY((deletable)) struct item *gone[2];
static GTY(()) struct lists row[2];
static GTY(()) char *name;
static GTY(()) struct item *grid[2][3];
static GTY(()) struct shelf shelf;
"#;
