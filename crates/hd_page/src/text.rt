//! The page's text and its policy. scripts/make/make_page.py makes this file of page/page.html.

/// An HTML document, with its style and its script inside.
pub(crate) const TEXT: &[u8] = b"<!DOCTYPE html>
<html lang=\"en\">
<head>
<meta charset=\"utf-8\">
<meta name=\"viewport\" content=\"width=device-width, initial-scale=1\">
<title>Hold desk</title>
<style>
:root {
  color-scheme: light dark;
  --line: color-mix(in srgb, currentColor 22%, transparent);
  --soft: light-dark(#4d5560, #b3bac4);
  --accent: light-dark(#0b5c8a, #8ecbf0);
  --bad: light-dark(#a11414, #ff9a90);
}
* { box-sizing: border-box; }
body { font: 16px/1.5 system-ui, sans-serif; max-width: 80rem; margin: 0 auto; padding: 1rem 1.25rem 4rem; }
header { border-bottom: 2px solid var(--accent); padding-bottom: .75rem; }
h1 { font-size: 1.5rem; margin: 0 0 .5rem; }
h2 { font-size: 1.15rem; margin: 2rem 0 .5rem; }
h3, caption { text-align: left; font-size: 1rem; font-weight: 600; margin: 0; padding: 1rem 0 .3rem; }
dl { display: flex; flex-wrap: wrap; gap: .25rem 1.75rem; margin: 0; }
dl div { display: flex; gap: .4rem; }
dt, thead th { color: var(--soft); }
dd { margin: 0; font-weight: 600; }
dd, .n { font-variant-numeric: tabular-nums; white-space: nowrap; }
form { display: flex; flex-wrap: wrap; gap: .75rem; align-items: end; }
label { display: grid; gap: .2rem; max-width: 100%; font-size: .875rem; color: var(--soft); }
input, select, button {
  font: inherit; height: 2.5rem; max-width: 100%; min-width: 0; padding: .4rem .6rem;
  border: 1px solid var(--soft); border-radius: .3rem;
  background: Canvas; color: CanvasText;
}
button { background: var(--accent); color: Canvas; border-color: transparent; cursor: pointer; }
a { color: var(--accent); }
:focus-visible { outline: 3px solid var(--accent); outline-offset: 2px; }
.tables { overflow-x: auto; }
table { border-collapse: collapse; min-width: 50%; margin-bottom: .5rem; }
th, td { text-align: left; vertical-align: top; padding: .35rem 1rem .35rem 0; }
th, td { border-bottom: 1px solid var(--line); }
thead th { font-weight: 500; font-size: .875rem; white-space: nowrap; }
.said { min-height: 1.5em; margin: .5rem 0 0; }
#told:empty { min-height: 0; margin: 0; }
#turns caption, #kinds caption { padding-top: 0; font-size: .875rem; font-weight: 400; color: var(--soft); }
.bad { color: var(--bad); font-weight: 600; }
</style>
</head>
<body>
<header>
<h1>Hold desk</h1>
<p class=\"said\" id=\"health\" role=\"status\"></p>
<dl id=\"state\"></dl>
</header>
<main>
<section aria-labelledby=\"look\">
<h2 id=\"look\">Look up</h2>
<form id=\"ask\">
<label for=\"kind\">What
<select id=\"kind\">
<option value=\"copies/*\">A copy: who has it, till when</option>
<option value=\"titles/*/queue\">A title: who waits</option>
<option value=\"patrons/*\">A patron: loans and holds</option>
<option value=\"branches/*/shelf\">A branch: what lies to be fetched</option>
<option value=\"branches/*/transit\">A branch: what is on the way there</option>
<option value=\"overdue?day=*\">A day: what is overdue</option>
<option value=\"expired?day=*\">A day: holds past their last day</option>
<option value=\"turns?day=*\">A day: what came in</option>
<option value=\"commands/*\">A command: would a cancellation be refused?</option>
</select></label>
<label for=\"name\"><span id=\"named\">Name</span>
<input id=\"name\" autocomplete=\"off\" spellcheck=\"false\" required></label>
<button>Show</button>
</form>
<p class=\"said\" id=\"said\" role=\"status\"></p>
<div class=\"tables\" id=\"found\" tabindex=\"0\" role=\"region\" aria-label=\"What was found\"></div>
<p><button id=\"more\" type=\"button\" hidden>Show more</button></p>
</section>
<section aria-labelledby=\"last\">
<h2 id=\"last\">The last turns</h2>
<p class=\"said\" id=\"told\" role=\"status\"></p>
<div class=\"tables\" id=\"turns\" tabindex=\"0\" role=\"region\" aria-labelledby=\"last\"></div>
<p><button id=\"earlier\" type=\"button\" hidden>Show earlier ones</button></p>
</section>
<section aria-labelledby=\"counted\">
<h2 id=\"counted\">Turns since the program began</h2>
<div class=\"tables\" id=\"kinds\" tabindex=\"0\" role=\"region\" aria-labelledby=\"counted\"></div>
</section>
</main>
<script>
'use strict';
const at = id => document.getElementById(id);
const PAGE = 512, FEW = 50, MOST_PAGES = 100;
let last = FEW;
const KINDS = [
  'copies/[^/?]+', 'titles/[^/?]+/queue', 'patrons/[^/?]+', 'branches/[^/?]+/shelf',
  'branches/[^/?]+/transit', '(overdue|expired|turns)[?]day=[^&]+', 'commands/[0-9]+',
].map(form => new RegExp('^' + form + '$'));
const LABELS = {
  command: 'Command', dependent: 'First that depends on it', due: 'Due', only: 'Only this copy',
  number: 'Command', stamp: 'Since command', admits: 'Which copies', pickup: 'Fetched at',
  to: 'On the way to',
};
const CAPTIONS = {
  copy: 'Copies', hold: 'Holds', turn: 'Turns', command: 'Command', before: 'Before it', after: 'After it',
};
const LINKS = {
  copy: 'copies/*', only: 'copies/*', title: 'titles/*/queue', patron: 'patrons/*', number: 'commands/*',
  command: 'commands/*', dependent: 'commands/*', stamp: 'commands/*', pickup: 'branches/*/shelf',
  branch: 'branches/*/shelf', to: 'branches/*/transit',
};
const STATE = [
  ['holddesk_journal_turns', 'Turns'],
  ['holddesk_numbers_left', 'Numbers left'],
  ['holddesk_connections', 'Terminals connected'],
  ['holddesk_workers_busy', 'Workers busy'],
  ['holddesk_journal_bytes', 'Journal, bytes'],
  ['holddesk_last_commit_seconds', 'Last commit, seconds'],
];

function isAsked(path) { return KINDS.some(kind => kind.test(path)); }
function make(tag, text) {
  const element = document.createElement(tag);
  if (text !== undefined) element.textContent = text;
  return element;
}

// A name that isn't UTF-8 is told a character a byte: this is the way back.
function byBytes(name) {
  return name.replace(/[^\\w.~-]/g, c => '%' + c.charCodeAt(0).toString(16).padStart(2, '0'));
}
function decoded(escaped) { try { return decodeURIComponent(escaped); } catch (fault) { return ''; } }
function isDay(value) { return /^\\d{4}-\\d\\d-\\d\\d$/.test(value); }
function label(name) { return LABELS[name] || name.charAt(0).toUpperCase() + name.slice(1); }

function cell(name, value) {
  const td = make('td');
  if (value === null || value === undefined) return td;
  if (typeof value === 'number' || isDay(value)) td.className = 'n';
  if (!Object.hasOwn(LINKS, name)) { td.textContent = value; return td; }
  const a = make('a', value);
  a.href = '#' + LINKS[name].replace('*', () => encodeURIComponent(value));
  td.append(a);
  return td;
}

// A table of rows of one kind, without the columns that are empty in all of them.
function table(caption, rows) {
  const all = rows.flatMap(row => Object.keys(row)).filter(name => name !== 'row');
  const isTold = name => rows.some(row => row[name] !== null && row[name] !== undefined);
  const names = [...new Set(all)].filter(isTold);
  const t = make('table'), head = make('tr'), body = make('tbody'), top = make('thead');
  t.append(make('caption', caption), top, body);
  top.append(head);
  for (const name of names) {
    const th = make('th', label(name));
    th.scope = 'col';
    head.append(th);
  }
  for (const row of rows) {
    const tr = make('tr');
    tr.append(...names.map(name => cell(name, row[name])));
    body.append(tr);
  }
  return t;
}
function tables(rows) {
  const kinds = new Map();
  for (const row of rows) {
    const kind = row.row || 'row';
    kinds.set(kind, [...(kinds.get(kind) || []), row]);
  }
  return [...kinds].map(([kind, some]) => table(CAPTIONS[kind] || label(kind), some));
}

async function get(path) {
  const answer = await fetch(path, { cache: 'no-store' });
  if (answer.ok) return answer;
  const fault = new Error((await answer.text()).trim());
  fault.status = answer.status;
  throw fault;
}

// The rows from a place on, page by page, until there are many or no more; and where the next page begins.
async function rowsFrom(path, after) {
  if (path.startsWith('turns?day=')) return [await returnsOn(path.slice('turns?day='.length)), null];
  const rows = [];
  for (;;) {
    const mark = path.includes('?') ? '&' : '?';
    const page = await (await get('/api/' + path + (after ? mark + 'after=' + after : ''))).json();
    const last = page[page.length - 1];
    const next = last && Object.hasOwn(last, 'next') ? last.next : null;
    rows.push(...(next === null ? page : page.slice(0, -1)));
    if (next === null || rows.length >= PAGE) return [rows, next];
    after = next;
  }
}

// The returns of a day that stand, the newest first: from the last turn back, to a page of earlier days.
async function returnsOn(day) {
  const rows = [], gone = new Set(), figures = counts(await (await get('/metrics')).text());
  let end = Number(figures.get('holddesk_journal_turns') || 0);
  for (let pages = 0; end > 0 && pages < MOST_PAGES; pages++) {
    const from = Math.max(0, end - PAGE);
    const page = await (await get('/api/turns?after=' + from + '&limit=' + (end - from))).json();
    const turns = page.filter(row => row.row === 'turn').reverse();
    for (const turn of turns) {
      if (turn.outcome === 'cancelled') gone.add(turn.number);
      const isReturn = turn.asked === 'checkin' && turn.outcome === 'done' && turn.day === day;
      if (isReturn && !gone.has(turn.number)) rows.push(turnShown(turn));
    }
    end = turns.some(turn => turn.day !== null && turn.day >= day) ? from : 0;
  }
  return rows;
}

let shown = { path: '', rows: [], next: null };
function say(text, bad) {
  at('said').textContent = text;
  at('said').classList.toggle('bad', Boolean(bad));
}
function sentence(path, rows) {
  const command = rows.find(row => row.row === 'command');
  if (path.startsWith('commands/') && command) {
    return command.dependent === null || command.dependent === undefined
      ? 'A cancellation of command ' + command.command + ' would not be refused: nothing depends on it now.'
      : 'A cancellation of command ' + command.command + ' would be refused: command ' + command.dependent
        + ' depends on it.';
  }
  if (rows.length === 0) return 'Nothing.';
  const many = rows.length + (rows.length === 1 ? ' row.' : ' rows.');
  return shown.next === null ? many : many + ' There are more.';
}
function put() {
  at('found').replaceChildren(...tables(shown.rows));
  at('more').hidden = shown.next === null;
  say(sentence(shown.path, shown.rows));
}
async function show(path) {
  say('\\u2026');
  try {
    let found;
    try { found = await rowsFrom(path, 0); } catch (fault) {
      // A name is taken as UTF-8 first, and then a character a byte.
      const name = decoded(path.split(/[\\/=]/)[1]);
      if (fault.status !== 404 || !/[\\x80-\\xff]/.test(name) || /[^\\x00-\\xff]/.test(name)) throw fault;
      path = path.replace(/([\\/=])[^\\/]+/, (all, mark) => mark + byBytes(name));
      found = await rowsFrom(path, 0);
    }
    shown = { path, rows: found[0], next: found[1] };
    put();
  } catch (fault) {
    shown = { path, rows: [], next: null };
    put();
    say(why(path, fault), true);
  }
}
function why(path, fault) {
  if (fault.status === 400) return 'There is no such day or number.';
  if (fault.status !== 404) return 'The desk does not answer: ' + fault.message;
  return path.startsWith('commands/') ? 'No command of this number stands.' : 'Nothing has this name.';
}
async function more() {
  try {
    const [rows, next] = await rowsFrom(shown.path, shown.next);
    shown = { path: shown.path, rows: [...shown.rows, ...rows], next };
    put();
    at('found').focus();
  } catch (fault) { say(why(shown.path, fault), true); }
}

function counts(text) {
  const found = new Map();
  for (const line of text.split('\\n')) {
    const cut = line.lastIndexOf(' ');
    if (cut > 0 && !line.startsWith('#')) found.set(line.slice(0, cut), line.slice(cut + 1));
  }
  return found;
}
function kindsOf(found) {
  const rows = new Map();
  for (const [name, count] of found) {
    const part = /^holddesk_turns_total\\{kind=.(\\w+).,outcome=.(\\w+).\\}$/.exec(name);
    if (!part) continue;
    const kind = part[1].replaceAll('_', ' ');
    rows.set(kind, { ...(rows.get(kind) || { kind }), [part[2]]: Number(count) });
  }
  return [...rows.values()];
}
// A turn, without its seat. Of a refused cancellation the number is that of the command that depends.
function turnShown({ seat, ...row }) {
  return row.why === 'DEPENDS' ? { ...row, why: 'DEPENDS ' + row.number } : row;
}
async function refresh() {
  try {
    const health = await fetch('/health', { cache: 'no-store' }), words = (await health.text()).trim();
    at('health').textContent = health.ok ? 'The desk is well.' : 'The desk is not well: ' + words + '.';
    at('health').classList.toggle('bad', !health.ok);
    const found = counts(await (await get('/metrics')).text());
    at('state').replaceChildren(...STATE.filter(([name]) => found.has(name)).map(([name, text]) => {
      const entry = make('div');
      entry.append(make('dt', text), make('dd', found.get(name)));
      return entry;
    }));
    const kinds = kindsOf(found);
    const none = make('p', 'They are not counted.');
    at('kinds').replaceChildren(kinds.length ? table('By kind and outcome', kinds) : none);
    const turns = Number(found.get('holddesk_journal_turns') || 0), after = Math.max(0, turns - last);
    const rows = (await (await get('/api/turns?after=' + after + '&limit=' + last)).json())
      .filter(row => !Object.hasOwn(row, 'next')).map(turnShown).reverse();
    if (!at('turns').querySelector(':focus')) {
      at('turns').replaceChildren(...(rows.length ? [table('The newest first', rows)] : []));
    }
    at('earlier').hidden = after === 0 || last >= PAGE;
    at('told').textContent = rows.length ? '' : 'No turns yet.';
    at('told').classList.remove('bad');
  } catch (fault) {
    at('told').textContent = 'The desk does not answer: ' + fault.message;
    at('told').classList.add('bad');
  }
}

function today() {
  const now = new Date();
  return new Date(now.getTime() - 60000 * now.getTimezoneOffset()).toISOString().slice(0, 10);
}
function named() {
  const day = at('kind').value.includes('day='), command = at('kind').value.startsWith('commands');
  at('name').type = day ? 'date' : 'text';
  at('name').inputMode = command ? 'numeric' : 'text';
  at('named').textContent = day ? 'Day' : command ? 'Number' : 'Name';
}
function asked() {
  const path = location.hash.slice(1);
  if (!isAsked(path)) return;
  const option = [...at('kind').options].find(it => {
    const [front, back] = it.value.split('*');
    return path.startsWith(front) && path.endsWith(back);
  });
  const [front, back] = option.value.split('*');
  at('kind').value = option.value;
  named();
  at('name').value = decoded(path.slice(front.length, path.length - back.length));
  show(path);
}
at('kind').addEventListener('change', () => {
  named();
  at('name').value = at('name').type === 'date' ? today() : '';
});
at('ask').addEventListener('submit', event => {
  event.preventDefault();
  const name = at('name').value.trim();
  const path = at('kind').value.replace('*', () => encodeURIComponent(name));
  if (!isAsked(path)) return say('A command has a number.', true);
  if (location.hash.slice(1) === path) asked(); else location.hash = path;
});
at('more').addEventListener('click', more);
at('earlier').addEventListener('click', () => {
  last = Math.min(PAGE, last + FEW);
  refresh();
});
addEventListener('hashchange', asked);
named();
asked();
refresh();
setInterval(refresh, 10000);
</script>
</body>
</html>
";

/// What a browser may load and run for it: its own style and script, by their sums, and nothing else.
pub(crate) const POLICY: &[u8] = b"default-src 'none'; \
    script-src 'sha256-j8JaRm9hdFUsDI+fEO7bKzbuOf4+jukXDzNFSNt63xU='; \
    style-src 'sha256-ks1hDWVwQIMjMtSfAgpzgU4Fgj+RQjHA7Foas3NWu0A='; \
    connect-src 'self'; \
    base-uri 'none'; \
    form-action 'none'; \
    frame-ancestors 'none'; \
    require-trusted-types-for 'script'";
