// The header that declares the program of the rows.

/// A number, pointers, padding, bit-fields, bytes that are never scanned, unions with and without a `desc` of their own and with a common
/// structure, strings and arrays that pointers name, a tail, and two caches.
pub const HEADER: &str = r#"
struct GTY(()) item { int n; };

struct GTY(()) node { struct node *next; struct item *one; };

struct GTY(()) base { short kind; struct item *p; };

struct GTY(()) wide { struct base b; long x; struct item *q; };

union GTY((desc ("%h.b.kind"))) form {
  struct base GTY((tag ("1"))) b;
  struct wide GTY((tag ("2"))) w;
};

union GTY(()) pay {
  int GTY((tag ("0"))) number;
  struct item *GTY((tag ("1"))) one;
};

struct GTY(()) cell {
  unsigned char sel;
  union pay GTY((desc ("%1.sel"))) u;
};

struct GTY(()) flags {
  unsigned low : 3;
  int high : 5;
  bool on;
  short GTY((skip)) raw[2];
  int grid[2];
};

struct GTY(()) vec {
  int num;
  struct item *GTY((length ("%h.num"))) elem[1];
};

struct GTY(()) hold {
  int len;
  struct item *GTY((length ("%h.len"))) list;
  struct item **GTY((length ("%h.len"))) some;
  char *s;
  char *GTY((string_length ("%h.len"))) t;
  void *GTY((atomic)) bytes;
};

struct GTY(()) inner {
  struct item *GTY((length ("%1.len"))) list;
};

struct GTY(()) outer {
  int len;
  struct inner in;
};

static GTY(()) int n;
static GTY(()) struct item *top;
static GTY((cache)) hash_map<struct item *, struct node *> *known;
static GTY((cache)) hash_map<struct vec *, struct item *> *sized;
"#;
